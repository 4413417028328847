//! The filing of a made case.
ghost use Rattle.std.specs.Prelude.{◌≡◌, ◌≤◌, ◌<◌, OnOk};
ghost use Rattle.case_maker.specs.Drawing.{going_on, said};
ghost use Rattle.case_maker.specs.Filing as Filing;

use crate::fares::MadeFare;
use crate::names::{AWAY, HOME, basis_name, hub_name};
use crate::page::Page;
use fare_law::Mem;
use itoa::Buffer;

const WEEKEND_RULE: &[u8] =
    b"{\"put_rule\":{\"carrier\":\"MX\",\"cat2\":{\"days\":[1,2,3],\"from\":\"05:00\",\"to\":\"22:00\"},\"cat5\":14,\"cat6\":{\"days\":3,\"sunday\":true},\"rule\":1}}";

const SEASON_RULE: &[u8] =
    b"{\"put_rule\":{\"carrier\":\"MX\",\"cat3\":[[\"2031-01-01\",\"2031-06-30\"]],\"cat7\":30,\"cat9\":{\"max\":1,\"online\":true},\"rule\":2}}";

const RETURN_RULE: &[u8] =
    b"{\"put_rule\":{\"carrier\":\"MX\",\"cat10\":{\"end_on_end\":\"free\",\"kinds\":[\"round_trip\",\"open_jaw\"],\"partners\":\"same_rule\"},\"cat4\":{\"allow\":false,\"flights\":[[\"MX\",4000,4004]]},\"cat8\":{\"charge\":0,\"max\":0},\"rule\":3}}";

const MARCH_RULE: &[u8] =
    b"{\"put_rule\":{\"carrier\":\"MX\",\"cat10\":{\"end_on_end\":\"same_carrier\",\"kinds\":[\"one_way\",\"round_trip\"],\"partners\":\"any\"},\"cat14\":{\"by\":\"2031-03-31\",\"ranges\":[[\"2031-03-01\",\"2031-03-31\"]]},\"rule\":4}}";

/// Adds the section of filings, with its one line.
pub(crate) fn push_filing(page: &mut Page, size: u32) -> Result<(), Mem>
    requires { size ≤ 100 }
    ensures { OnOk result (page.new ≡ going_on page.old (Filing.filing size)) }
{
    page.say(b"#filings\n{\"actions\":[")?;
    page.say_all(&[
        WEEKEND_RULE,
        b",",
        SEASON_RULE,
        b",",
        RETURN_RULE,
        b",",
        MARCH_RULE,
    ])?;
    for j in 0..2 * size {
        push_way_fare(page, j)?;
    }
    push_free_fare(page, AWAY, HOME, *b"Z000", 30000)?;
    for i in 0..size {
        push_hub_fares(page, i)?;
    }
    page.say(b"]}\n")
}

// Adds a fare for the whole way out.
#[tactic(auto, unfolding(crate::specs::Drawing::going_on))]
fn push_way_fare(page: &mut Page, j: u32) -> Result<(), Mem>
    requires { j < 1000 }
    ensures { OnOk result (page.new ≡ going_on page.old (Filing.way_fare j)) }
{
    let class = b"YMQ"[page.draw(3) as usize];
    let kind = b"ORS"[page.draw(3) as usize];
    let amount = 10_000 + 2 * page.draw(20_000);
    let rule = page.draw(5);
    let fare = MadeFare {
        from: HOME,
        to: AWAY,
        basis: basis_name(j),
        class,
        kind,
        amount,
        rule,
    };
    push_fare(page, &fare)
}

// Adds the fares between a hub and the two ends of the way out.
fn push_hub_fares(page: &mut Page, i: u32) -> Result<(), Mem>
    requires { i < 100 }
    ensures { OnOk result (page.new ≡ going_on page.old (Filing.hub_fares i)) }
{
    let hub = hub_name(i);
    push_short_fare(page, HOME, hub)?;
    push_short_fare(page, hub, AWAY)
}

#[tactic(auto, unfolding(crate::specs::Drawing::going_on))]
fn push_short_fare(page: &mut Page, from: [u8; 3], to: [u8; 3]) -> Result<(), Mem>
    ensures { OnOk result (page.new ≡ going_on page.old (Filing.short_fare from to)) }
{
    let amount = 4000 + 2 * page.draw(4000);
    push_free_fare(page, from, to, *b"V000", amount)
}

// Adds a fare of kind O that no rule restricts.
fn push_free_fare(
    page: &mut Page,
    from: [u8; 3],
    to: [u8; 3],
    basis: [u8; 4],
    amount: u64,
) -> Result<(), Mem>
    ensures { OnOk result (page.new ≡ going_on page.old (Filing.free_fare from to basis amount)) }
{
    push_fare(
        page,
        &MadeFare {
            from,
            to,
            basis,
            class: b'Y',
            kind: b'O',
            amount,
            rule: 0,
        },
    )
}

fn push_fare(page: &mut Page, fare: &MadeFare) -> Result<(), Mem>
    ensures { OnOk result (page.new ≡ going_on page.old (said (Filing.fare_action fare.now))) }
{
    let (mut amounts, mut rules) = (Buffer::new(), Buffer::new());
    let pieces: [&[u8]; 15] = [
        b",{\"put_fare\":{\"amount\":",
        amounts.format(fare.amount).as_bytes(),
        b",\"basis\":\"",
        &fare.basis,
        b"\",\"carrier\":\"MX\",\"class\":\"",
        &[fare.class],
        b"\",\"from\":\"",
        &fare.from,
        b"\",\"kind\":\"",
        &[fare.kind],
        b"\",\"rule\":",
        rules.format(fare.rule).as_bytes(),
        b",\"to\":\"",
        &fare.to,
        b"\"}}",
    ];
    page.say_all(&pieces)
}
