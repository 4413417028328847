//! Keys: whether two ask for the same, and where the node of one may be kept.
ghost use Rattle.std.specs.Prelude.{◌≡◌, ◌↔◌, ◌<◌, ◌^◌, IsTrue, length, slice_index_or, take};
ghost use Rattle.fare_component.specs.Homes.{home_of};
ghost use Rattle.fare_component.specs.Keys.{asked};
ghost use Rattle.fare_law.specs.declared.sheets.SheetRow.{SheetRow};

use fare_component::weighed;
use fare_law::{Leg, MarketSheet, OfferKey};

/// Whether two keys ask for the same: equal legs, and sheets of one market with equal rows.
pub fn asks_same(one: &OfferKey, other: &OfferKey) -> bool
    ensures { IsTrue result ↔ (asked one.now ≡ asked other.now) }
{
    same_legs(one.legs.as_slice(), other.legs.as_slice()) && same_sheet(&one.sheet, &other.sheet)
}

fn same_sheet(one: &MarketSheet, other: &MarketSheet) -> bool
    ensures { IsTrue result ↔ (one.now ≡ other.now) }
{
    one.from.is(other.from) && one.to.is(other.to) && same_rows(one, other)
}

fn same_legs(one: &[Leg], other: &[Leg]) -> bool
    ensures { IsTrue result ↔ (one.now ≡ other.now) }
{
    one == other
}

/// Whether the sheets have equal rows. Two rules are held against each other once: a row whose rule came
/// before in both sheets, in one place, has equal rules where that place has.
fn same_rows(one: &MarketSheet, other: &MarketSheet) -> bool
    ensures { IsTrue result ↔ (one.now.rows ≡ other.now.rows) }
{
    let ours = one.rows.as_slice();
    let theirs = other.rows.as_slice();
    if ours.len() != theirs.len() {
        return false;
    }
    for at in 0..ours.len() {
        if !ours[at].fare.is(&theirs[at].fare) || !same_rule(one, other, at) {
            return false;
        }
    }
    true
}

/// Whether the rules of a row are equal in two sheets, whose rows before are equal.
fn same_rule(one: &MarketSheet, other: &MarketSheet, at: usize) -> bool
    requires ours { at < length one.now.rows }
    requires theirs { at < length other.now.rows }
    requires before { take at one.now.rows ≡ take at other.now.rows }
    ensures { IsTrue result ↔ ((d : SheetRow) → (slice_index_or one.now.rows at d).rule ≡ (slice_index_or other.now.rows at d).rule) }
{
    let place = one.rule_rows.as_slice()[at];
    if (place as usize) < at && place == other.rule_rows.as_slice()[at] {
        return true;
    }
    let ours = &one.rows.as_slice()[at];
    let theirs = &other.rows.as_slice()[at];
    ours.rule.is(&theirs.rule)
}

/// Where the first home cell of a key stands, before it is taken modulo the count of cells.
pub fn home_of(key: &OfferKey) -> usize
    ensures value { result ≡ home_of (asked key.now) }
    ensures low { result < 2 ^ 50 }
{
    let mut home = 0;
    let mut times = 1;
    for leg in key.legs.as_slice() {
        home += weighed(times, &leg.flight);
        times += 1;
    }
    home
}
