//! Where the groups of a carrier stand in a market.
ghost use Rattle.std.specs.Prelude.{◌≡◌, ◌≤◌, ◌<◌, ℕ, length, slice_get, MatchOption, Some, false};
ghost use Rattle.fare_ends.specs.declared.markets.MarketKey.{MarketKey as KeyData};
ghost use Rattle.fare_ends.specs.Markets.{StandsAt};
ghost use Rattle.fare_ends.specs.Reaches.{FiledAt, HasNoFares};
ghost use Rattle.fare_book.specs.Keeping.{NoFare};
ghost use Rattle.fare_groups.specs.declared.group.FareGroup.{FareGroup as OneGroup};
ghost use Rattle.fare_law.specs.Book.{Book as Version};

use crate::markets::Market;
use fare_book::Book;
use fare_groups::FareGroup;
use fare_law::{Carrier, Place};

/// The place of a market, and the places between which all groups of a carrier stand there.
#[derive(Clone, Copy)]
pub struct Filed {
    pub market: usize,
    pub from: usize,
    pub to: usize,
}

/// Where the groups of a carrier stand in the market at a place, if there is one.
pub fn filed_at(markets: &[Market], found: Option<usize>, carrier: Carrier) -> Option<Filed>
    ensures { (b : Version) (key : KeyData) → MatchOption found (NoFare b key.from key.to) (StandsAt markets.now key) → MatchOption result (NoFare b key.from key.to) (FiledAt markets.now key carrier) }
{
    let Some(market) = found else {
        return None;
    };
    let Some(kept) = markets.get(market) else {
        return None;
    };
    let groups = kept.groups.as_slice();
    let from = first_place(groups, carrier);
    let to = past_place(groups, carrier);
    Some(Filed { market, from, to })
}

/// A place before which no group is of the carrier.
fn first_place(groups: &[FareGroup], carrier: Carrier) -> usize
    ensures { (i : ℕ) (g : OneGroup) → slice_get groups.now i ≡ Some g → g.key.carrier ≡ carrier → result ≤ i }
{
    for at in 0..groups.len() {
        if groups[at].key.carrier.is(carrier) {
            return at;
        }
    }
    groups.len()
}

/// A place from which on no group is of the carrier.
fn past_place(groups: &[FareGroup], carrier: Carrier) -> usize
    ensures within { result ≤ length groups.now }
    ensures past { (i : ℕ) (g : OneGroup) → slice_get groups.now i ≡ Some g → g.key.carrier ≡ carrier → i < result }
{
    let mut past = 0;
    for at in 0..groups.len() {
        if groups[at].key.carrier.is(carrier) {
            past = at + 1;
        }
    }
    past
}

/// Whether some fare is filed from the one place to the other, or back.
pub fn has_fare(book: &Book, from: Place, to: Place) -> bool
    ensures { result ≡ false → HasNoFares book.now from to }
{
    book.sheet(from, to).is_some() || book.sheet(to, from).is_some()
}
