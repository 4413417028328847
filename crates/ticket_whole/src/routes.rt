//! Flights one after another: where they join, call and stop.
ghost use Rattle.std.specs.Prelude.{◌≡◌, ◌≢◌, ◌↔◌, ◌&&◌, ◌≤ℤ◌, ◌+ℤ◌, pos, int_le, drop, All, IsTrue};
ghost use Rattle.std.specs.List.{list_all, zip};
ghost use Rattle.fare_law.specs.Book.{connect, same_place};
ghost use Rattle.fare_law.specs.Journey.{Joins, ShortStop, calls};
ghost use Rattle.fare_law.specs.Limits.{IsFlight};
ghost use Rattle.fare_law.specs.Lists.{AllDifferent, Each, EachPair};

use crate::component_flights::connect;
use fare_book::Book;
use fare_law::{Flight, Place};

/// Whether each flight departs where the one before arrived.
pub fn joined(flights: &[Flight]) -> bool
    ensures { IsTrue result ↔ EachPair Joins flights.now }
{
    all_join(flights)
}

fn all_join(flights: &[Flight]) -> bool
    ensures { result ≡ list_all (λ p. same_place p.1.from p.0.to) (zip flights.now (drop 1 flights.now)) }
{
    flights
        .iter()
        .zip(flights.iter().skip(1))
        .all(|(arriving, departing)| joins(arriving, departing))
}

fn joins(arriving: &Flight, departing: &Flight) -> bool
    ensures { result ≡ same_place departing.now.from arriving.now.to }
{
    departing.from == arriving.to
}

/// Whether each stop is long enough for its place, and at most a day.
pub fn short_stops(flights: &[Flight], book: &Book) -> bool
    requires { All IsFlight flights.now }
    ensures { IsTrue result ↔ EachPair (ShortStop book.now) flights.now }
{
    all_short(flights, book)
}

fn all_short(flights: &[Flight], book: &Book) -> bool
    requires { All IsFlight flights.now }
    ensures { result ≡ list_all (λ p. int_le (p.0.arr +ℤ pos (connect book.now p.1.from)) p.1.dep && int_le p.1.dep (p.0.arr +ℤ pos 1440)) (zip flights.now (drop 1 flights.now)) }
{
    flights.iter().zip(flights.iter().skip(1)).all(|(arriving, departing)| is_short(
        arriving, departing, book,
    ))
}

fn is_short(arriving: &Flight, departing: &Flight, book: &Book) -> bool
    requires { IsFlight arriving.now }
    ensures { result ≡ int_le (arriving.now.arr +ℤ pos (connect book.now departing.now.from)) departing.now.dep && int_le departing.now.dep (arriving.now.arr +ℤ pos 1440) }
{
    arriving.arr + i64::from(connect(book, departing.from)) <= departing.dep
        && departing.dep <= arriving.arr + 1440
}

/// Whether flights from a place call at no place twice.
pub fn places_once(origin: Place, flights: &[Flight]) -> bool
    ensures { IsTrue result ↔ AllDifferent (calls origin flights.now) }
{
    let mut place = origin;
    for at in 0..flights.len() {
        let (_, later) = flights.split_at(at);
        if !misses(place, later) {
            return false;
        }
        place = flights[at].to;
    }
    true
}

/// Whether none of the flights arrives at the place.
fn misses(place: Place, flights: &[Flight]) -> bool
    ensures { IsTrue result ↔ All (λ f. place ≢ f.to) flights.now }
{
    flights.iter().all(|flight| !place.is(flight.to))
}
