//! Whether fares of a market may be offered on the flights of a way, by the groups of its fares.
ghost use Rattle.std.specs.Prelude.{◌≡◌, ◌≤◌, ◌<◌, ◌↔◌, ℕ, All, IsBitSet, false, length};
ghost use Rattle.asked_keys.specs.Offering.{NoneOffered, OffersNone};
ghost use Rattle.fare_ends.specs.Markets.{IsMarket};
ghost use Rattle.fare_book.specs.Keeping.{Limited};
ghost use Rattle.fare_groups.specs.Groups.{HasClass};
ghost use Rattle.fare_law.specs.declared.requests.Request.{Request as Asking};
ghost use Rattle.fare_law.specs.Limits.{IsFlight};
ghost use Rattle.fare_law.specs.Lists.{IsIn};
ghost use Rattle.fare_law.specs.Offers.{flights_of};
ghost use Rattle.residual_keys.specs.Gathered.{AreLegs};

use component_table::Market;
use fare_book::Book;
use fare_groups::{FareGroup, classes_of_all, extra, first_row};
use fare_law::MarketSheet;
use residual_keys::{Way, first_of};
use ticket_order::order_laws;

/// Whether a fare of a market may be offered on the flights of a way.
pub fn may_be_offered(book: &Book, market: &Market, way: &Way) -> bool
    requires market { IsMarket book.now market.now }
    requires some { 1 ≤ length way.now.flights }
    requires flights { All IsFlight way.now.flights }
    requires legs { flights_of way.now.legs ≡ way.now.flights }
    ensures { result ≡ false → (q : Asking) → AreLegs book.now q way.now.flights way.now.legs → OffersNone book.now q way.now.flights market.now.sheet.value.from market.now.sheet.value.to }
{
    order_laws();
    book.limits();
    let classes = classes_of_all(way.legs.as_slice());
    for group in market.groups.as_slice() {
        if is_offered(book, market, group, way, classes) {
            return true;
        }
    }
    false
}

/// Whether a group has a fare in an open class, and its rule permits the flights. No rule does whose carrier isn't the
/// first flight's.
fn is_offered(book: &Book, market: &Market, group: &FareGroup, way: &Way, classes: u32) -> bool
    requires market { IsMarket book.now market.now }
    requires limited { Limited book.now }
    requires group { IsIn group.now market.now.groups }
    requires some { 1 ≤ length way.now.flights }
    requires flights { All IsFlight way.now.flights }
    requires legs { flights_of way.now.legs ≡ way.now.flights }
    requires classes { (class : ℕ) → class < 32 → IsBitSet classes class ↔ HasClass class way.now.legs }
    ensures { result ≡ false → NoneOffered market.now.sheet.value.rows way.now.legs group.now }
{
    let flights = way.flights.as_slice();
    if !group.key.carrier.is(first_of(flights).carrier) {
        return false;
    }
    if group.cheapest(classes).is_none() {
        return false;
    }
    let sheet: &MarketSheet = &market.sheet;
    let row = first_row(sheet, group);
    extra(&row.rule, group.key.carrier, flights).is_some()
}
