//! The tables of a made case.
ghost use Rattle.std.specs.Prelude.{◌≡◌, ◌≤◌, ◌<◌, OnOk};
ghost use Rattle.case_maker.specs.Drawing.{going_on};
ghost use Rattle.case_maker.specs.Tables as Tables;

use crate::clock::clock_time;
use crate::legs::Leg;
use crate::names::{AWAY, BACK_DATE, HOME, OUT_DATE, hub_name};
use crate::page::Page;
use fare_law::Mem;
use itoa::Buffer;

/// Adds the section of places.
pub(crate) fn push_places(page: &mut Page, size: u32) -> Result<(), Mem>
    requires { size ≤ 100 }
    ensures { OnOk result (page.new ≡ going_on page.old (Tables.places size)) }
{
    page.say(b"#places\nAAA,45\nBBB,45\n")?;
    for i in 0..size {
        page.say_row(&[&hub_name(i), b"45"])?;
    }
    Ok(())
}

/// Adds the section of flights.
pub(crate) fn push_flights(page: &mut Page, size: u32) -> Result<(), Mem>
    requires { size ≤ 100 }
    ensures { OnOk result (page.new ≡ going_on page.old (Tables.flights size)) }
{
    page.say(b"#flights\n")?;
    let out = Leg {
        number: 1,
        from: HOME,
        to: AWAY,
        date: OUT_DATE,
    };
    push_flight(page, out, 540, 780)?;
    let back = Leg {
        number: 2,
        from: AWAY,
        to: HOME,
        date: BACK_DATE,
    };
    push_flight(page, back, 540, 780)?;
    for i in 0..size {
        push_hub_flights(page, i)?;
    }
    Ok(())
}

// Adds the flights by a hub.
fn push_hub_flights(page: &mut Page, i: u32) -> Result<(), Mem>
    requires { i < 100 }
    ensures { OnOk result (page.new ≡ going_on page.old (Tables.hub_flights i)) }
{
    let hub = hub_name(i);
    let out_to = Leg {
        number: 1000 + i,
        from: HOME,
        to: hub,
        date: OUT_DATE,
    };
    push_drawn_flight(page, out_to, 360, 60)?;
    let out_on = Leg {
        number: 2000 + i,
        from: hub,
        to: AWAY,
        date: OUT_DATE,
    };
    push_drawn_flight(page, out_on, 720, 240)?;
    let back_to = Leg {
        number: 3000 + i,
        from: AWAY,
        to: hub,
        date: BACK_DATE,
    };
    push_drawn_flight(page, back_to, 360, 60)?;
    let back_on = Leg {
        number: 4000 + i,
        from: hub,
        to: HOME,
        date: BACK_DATE,
    };
    push_drawn_flight(page, back_on, 720, 240)
}

// Adds a flight that departs in the two hours from the earliest minute on, and takes up to an hour more than the shortest.
#[tactic(auto, unfolding(crate::specs::Drawing::going_on))]
fn push_drawn_flight(page: &mut Page, leg: Leg, earliest: u64, shortest: u64) -> Result<(), Mem>
    requires earliest { earliest ≤ 720 }
    requires shortest { shortest ≤ 240 }
    ensures { OnOk result (page.new ≡ going_on page.old (Tables.drawn_flight leg earliest shortest)) }
{
    let departs = earliest + page.draw(120);
    let arrives = departs + (shortest + page.draw(60));
    push_flight(page, leg, departs, arrives)
}

fn push_flight(page: &mut Page, leg: Leg, departs: u64, arrives: u64) -> Result<(), Mem>
    requires departs { departs < 1440 }
    requires arrives { arrives < 1440 }
    ensures { OnOk result (page.new ≡ going_on page.old (Tables.flight_row leg departs arrives)) }
{
    let mut numbers = Buffer::new();
    let number = numbers.format(leg.number).as_bytes();
    let (departure, arrival) = (clock_time(departs), clock_time(arrives));
    let columns: [&[u8]; 12] = [
        b"MX", number, &leg.from, &leg.to, &departure, b"+00:00", &arrival, b"+00:00", b"0",
        &leg.date, &leg.date, b"1",
    ];
    page.say_row(&columns)
}

/// Adds the section of seats.
pub(crate) fn push_seats(page: &mut Page, size: u32) -> Result<(), Mem>
    requires { size ≤ 100 }
    ensures { OnOk result (page.new ≡ going_on page.old (Tables.seats size)) }
{
    page.say(b"#seats\n")?;
    push_seat_row(page, 1, HOME)?;
    push_seat_row(page, 2, AWAY)?;
    for i in 0..size {
        push_hub_seats(page, i)?;
    }
    Ok(())
}

// Adds the seats of the flights by a hub.
fn push_hub_seats(page: &mut Page, i: u32) -> Result<(), Mem>
    requires { i < 100 }
    ensures { OnOk result (page.new ≡ going_on page.old (Tables.hub_seats i)) }
{
    let hub = hub_name(i);
    push_seat_row(page, 1000 + i, HOME)?;
    push_seat_row(page, 2000 + i, hub)?;
    push_seat_row(page, 3000 + i, AWAY)?;
    push_seat_row(page, 4000 + i, hub)
}

#[tactic(auto, unfolding(crate::specs::Drawing::going_on))]
fn push_seat_row(page: &mut Page, number: u32, from: [u8; 3]) -> Result<(), Mem>
    ensures { OnOk result (page.new ≡ going_on page.old (Tables.seat_row number from)) }
{
    let in_m = page.draw(10) as u8;
    let in_q = page.draw(10) as u8;
    let seats = [b'Y', b'9', b'M', b'0' + in_m, b'Q', b'0' + in_q];
    let mut numbers = Buffer::new();
    let number = numbers.format(number).as_bytes();
    page.say_row(&[b"MX", number, &from, b"*", &seats])
}
