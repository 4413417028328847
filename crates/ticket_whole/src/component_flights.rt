//! What a book knows of a component: its flights, the row of its fare, and the connect times of places.
ghost use Rattle.std.specs.Prelude.{◌≡◌, ◌↔◌, ◌≤◌, length, slice_get, Any, All, IsTrue, Some, None, IfSome, MatchOption};
ghost use Rattle.std.specs.List.{filter_map};
ghost use Rattle.fare_law.specs.Book.{connect};
ghost use Rattle.fare_law.specs.Limits.{IsFlight};
ghost use Rattle.fare_law.specs.Lists.{Each};
ghost use Rattle.fare_law.specs.RuleLimits.{IsRule};
ghost use Rattle.ticket_whole.specs.Known.{known_flights, ends_of, live_row, IsUnknown};

use fare_book::Book;
use fare_law::{ArrayVec, Component, Flight, MOST_FLIGHTS_OF_A_COMPONENT, Place, SheetRow};

/// All flights of the book's timetable.
pub fn all_flights(book: &Book) -> &[Flight]
    ensures flights { result.now ≡ book.now.timetable.flights }
    ensures limits { Each IsFlight result.now }
{
    book.timetable().schedule().flights()
}

/// The least connect time of a place in minutes, 0 where it is unknown.
#[tactic(auto, unfolding(fare_law::specs::Book::connect))]
pub fn connect(book: &Book, place: Place) -> u16
    ensures { result ≡ connect book.now place }
{
    book.timetable().schedule().connect(place).unwrap_or(0)
}

/// Whether a flight of the component is unknown.
pub fn has_unknown_flight(component: &Component, book: &Book) -> bool
    ensures { IsTrue result ↔ Any (IsUnknown book.now) component.now.flights }
{
    let flights = all_flights(book);
    component
        .flights
        .as_slice()
        .iter()
        .any(|number| flights.get(*number as usize).is_none())
}

/// The known flights of the component, in order.
pub fn flights_of(
    component: &Component,
    book: &Book,
) -> ArrayVec<Flight, MOST_FLIGHTS_OF_A_COMPONENT>
    ensures flights { result ≡ known_flights book.now component.now.flights }
    ensures limits { Each IsFlight result }
    ensures few { length result ≤ MOST_FLIGHTS_OF_A_COMPONENT }
{
    numbered(component.flights.as_slice(), all_flights(book))
}

/// The flights that have one of at most four numbers.
#[tactic(auto, using(crate::proofs::KnownGathering::gather_steps))]
fn numbered(numbers: &[u32], flights: &[Flight]) -> ArrayVec<Flight, MOST_FLIGHTS_OF_A_COMPONENT>
    requires few { length numbers.now ≤ MOST_FLIGHTS_OF_A_COMPONENT }
    requires limits { Each IsFlight flights.now }
    ensures flights { result ≡ filter_map (slice_get flights.now) numbers.now }
    ensures limits { Each IsFlight result }
    ensures few { length result ≤ MOST_FLIGHTS_OF_A_COMPONENT }
{
    let mut found = ArrayVec::new();
    for number in numbers {
        let Some(flight) = flight_numbered(flights, *number) else {
            continue;
        };
        found.push(flight);
    }
    found
}

/// The flight of a number.
pub fn flight_numbered(flights: &[Flight], number: u32) -> Option<Flight>
    ensures { result ≡ slice_get flights.now number }
{
    flights.get(number as usize).copied()
}

/// The first flight and the last, if there are any.
#[tactic(auto, using(crate::proofs::FlightEnds::ends_told))]
pub fn ends_of(flights: &[Flight]) -> Option<(Flight, Flight)>
    ensures { result ≡ ends_of flights.now }
{
    let first = flights.first().copied()?;
    let last = flights.last().copied()?;
    Some((first, last))
}

/// The row of the component's fare. None exactly where that isn't live.
pub fn row_of<'a>(component: &Component, book: &'a Book) -> Option<&'a SheetRow>
    ensures row { MatchOption result (live_row book.now component.now.fare ≡ None) (λ row. live_row book.now component.now.fare ≡ Some row.now) }
    ensures class { IfSome result (λ row. row.now.fare.class ≤ 25) }
    ensures rule { IfSome result (λ row. IsRule row.now.rule) }
{
    book.limits();
    let row = book.fare(&component.fare)?;
    Some(row)
}
