//! The flights of components that a book knows.
ghost use Rattle.std.specs.Prelude.{◌≡◌, ◌↔◌, ◌≤◌, ◌+◌, ◌++◌, length, slice_get, Any, IsSome, IsTrue};
ghost use Rattle.std.specs.List.{filter_map};
ghost use Rattle.fare_law.specs.Limits.{IsFlight};
ghost use Rattle.fare_law.specs.Lists.{Each};
ghost use Rattle.ticket_whole.specs.Breaches.{flights_of};
ghost use Rattle.ticket_whole.specs.Known.{known_flights, ends_of};

use crate::component_flights::{all_flights, flight_numbered};
use fare_book::Book;
use fare_law::{ArrayVec, Component, Flight, MOST_COMPONENTS, MOST_FLIGHTS};

/// The known flights of at most `MOST_COMPONENTS` components, in order.
pub fn flights_of(components: &[Component], book: &Book) -> ArrayVec<Flight, MOST_FLIGHTS>
    requires { length components.now ≤ MOST_COMPONENTS }
    ensures flights { result ≡ flights_of book.now components.now }
    ensures limits { Each IsFlight result }
{
    let flights = all_flights(book);
    let mut found = ArrayVec::new();
    for component in components {
        add_numbered(&mut found, component.flights.as_slice(), flights);
    }
    found
}

/// Adds the flights that have one of these numbers.
fn add_numbered(found: &mut ArrayVec<Flight, MOST_FLIGHTS>, numbers: &[u32], flights: &[Flight])
    requires room { length found.old + length numbers.now ≤ MOST_FLIGHTS }
    requires held { Each IsFlight found.old }
    requires limits { Each IsFlight flights.now }
    ensures flights { found.new ≡ found.old ++ filter_map (slice_get flights.now) numbers.now }
    ensures limits { Each IsFlight found.new }
    ensures few { length found.new ≤ length found.old + length numbers.now }
{
    for number in numbers {
        let Some(flight) = flight_numbered(flights, *number) else {
            continue;
        };
        found.push(flight);
    }
}

/// Whether a flight of the component is known.
pub fn has_known_flight(component: &Component, book: &Book) -> bool
    ensures { IsTrue result ↔ IsSome (ends_of (known_flights book.now component.now.flights)) }
{
    has_numbered(component.flights.as_slice(), all_flights(book))
}

/// Whether a flight has one of these numbers.
fn has_numbered(numbers: &[u32], flights: &[Flight]) -> bool
    ensures { IsTrue result ↔ Any (λ n. IsSome (slice_get flights.now n)) numbers.now }
{
    numbers.iter().any(|number| is_numbered(flights, *number))
}

/// Whether a flight has this number.
fn is_numbered(flights: &[Flight], number: u32) -> bool
    ensures { IsTrue result ↔ IsSome (slice_get flights.now number) }
{
    flight_numbered(flights, number).is_some()
}
