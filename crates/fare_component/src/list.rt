//! The offers of a key.
ghost use Rattle.std.specs.Prelude.{◌≡◌, ◌⊎◌, ◌↔◌, ◌≤◌, ◌<◌, length, map, All, IfOk, IsTrue, ℕ, pos, false, slice_index_or, vec_len};
ghost use Rattle.std.specs.Int.{IsInRange};
ghost use Rattle.fare_law.specs.Lists.{OnFirst};
ghost use Rattle.fare_law.specs.Offers.{flights_of};
ghost use Rattle.fare_law.specs.Sheets.{first_minute, last_minute};
ghost use Rattle.lane_mask.specs.Spans.{AreMarked};
ghost use Rattle.fare_component.specs.Keys.{Begins, Ends, IsKey};
ghost use Rattle.fare_component.specs.Offers.{AreOffers};

use crate::component::{is_offered, price};
use crate::{Offer, OfferRows};
use fare_law::{
    ArrayVec, Flight, Leg, List, MOST_FLIGHTS_OF_A_COMPONENT, MarketSheet, Mem, OfferKey, Place,
};
use lane_mask::between;
use std::alloc::Global;

/// The offers of a key of one to four legs. Rows whose hours the first departure misses are set aside
/// by their columns; the rest are tested one by one.
pub fn offers(alloc: Global, key: &OfferKey) -> Result<OfferRows, Mem>
    requires { IsKey key.now }
    ensures { IfOk result (AreOffers key.now) }
{
    let sheet: &MarketSheet = &key.sheet;
    let legs = key.legs.as_slice();
    let flights = flights_of(legs);
    let flights = flights.as_slice();
    let mut rows = List::new(alloc);
    if !joins(sheet.from, sheet.to, flights) {
        return Ok(OfferRows { rows });
    }
    let may_depart = rows_of_minute(alloc, sheet, first_minute_of(flights))?;
    for place in 0..may_depart.len() {
        let row = &sheet.rows.as_slice()[place];
        if may_depart[place] && is_offered(row, legs, flights) {
            rows.push(Offer {
                place: place as u32,
                price: price(row, flights),
            })?;
        }
    }
    Ok(OfferRows { rows })
}

/// The flights of the legs, of which there are at most four.
fn flights_of(legs: &[Leg]) -> ArrayVec<Flight, MOST_FLIGHTS_OF_A_COMPONENT>
    requires { length legs.now ≤ MOST_FLIGHTS_OF_A_COMPONENT }
    ensures { result ≡ flights_of legs.now }
{
    let mut flights = ArrayVec::new();
    for leg in legs {
        flights.push(leg.flight);
    }
    flights
}

/// Whether the flights go from the one place to the other, or the other way round.
fn joins(from: Place, to: Place, flights: &[Flight]) -> bool
    ensures { IsTrue result ↔ ((Begins from flights.now × Ends to flights.now) ⊎ (Begins to flights.now × Ends from flights.now)) }
{
    begins(from, flights) && ends(to, flights) || begins(to, flights) && ends(from, flights)
}

/// Whether the first flight departs from the place.
fn begins(place: Place, flights: &[Flight]) -> bool
    ensures { IsTrue result ↔ Begins place flights.now }
{
    flights.first().is_some_and(|flight| place.is(flight.from))
}

/// Whether the last flight arrives at the place.
#[tactic(auto, using(crate::proofs::Ends::ends_told))]
fn ends(place: Place, flights: &[Flight]) -> bool
    ensures { IsTrue result ↔ Ends place flights.now }
{
    flights.last().is_some_and(|flight| place.is(flight.to))
}

/// The local minute at which the first flight departs.
fn first_minute_of(flights: &[Flight]) -> u16
    requires { 0 < length flights.now }
    ensures { OnFirst (λ f. f.minute ≡ result) flights.now }
{
    flights[0].minute
}

/// Which rows let a component depart at that minute of the day.
fn rows_of_minute(alloc: Global, sheet: &MarketSheet, minute: u16) -> Result<Vec<bool>, Mem>
    ensures many { IfOk result (λ marks. vec_len marks ≡ length sheet.now.rows) }
    ensures marks { IfOk result (λ marks. AreMarked (map first_minute sheet.now.rows) (map last_minute sheet.now.rows) (pos minute) marks.items (length sheet.now.rows)) }
{
    let mut marks = vec![in alloc; false; sheet.rows.len()]?;
    between(
        sheet.opens.as_slice(),
        sheet.closes.as_slice(),
        i32::from(minute),
        &mut marks,
    );
    Ok(marks)
}
