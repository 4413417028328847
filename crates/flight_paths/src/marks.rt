//! Marks of places: lists of places whose marks share no bit share no place, which spares a look at far flights.
ghost use Rattle.std.specs.Prelude.{◌≡◌, ◌^◌, List as Items, IfOk, Some, slice_get};
ghost use Rattle.fare_law.specs.declared.flights.Flight.{Flight as DatedFlight};
ghost use Rattle.flight_paths.specs.Marks.{AreMarks, HasBits, place_bit};
ghost use Rattle.flight_paths.specs.Ways.{AreFlightsOf, arrivals_of};

use crate::Path;
use fare_law::{Flight, List, Mem, Place};
use schedule_book::Schedule;
use std::alloc::Global;

/// The marks of tails: of the places where the flights of each arrive.
pub fn marks_of(alloc: Global, schedule: &Schedule, tails: &[Path]) -> Result<List<u64>, Mem>
    ensures { IfOk result (AreMarks schedule.now.flights tails.now) }
{
    let flights = schedule.flights();
    let mut marks = List::new(alloc);
    for tail in tails {
        marks.push(mark_of_flights(flights, tail.flights.as_slice()))?;
    }
    Ok(marks)
}

/// The mark of the places where the flights of these numbers arrive.
fn mark_of_flights(flights: &[Flight], numbers: &[u32]) -> u64
    ensures { (fs : Items DatedFlight) → AreFlightsOf flights.now numbers.now fs → HasBits result (arrivals_of fs) }
{
    let mut mark = 0;
    for number in numbers {
        mark |= bit_of_flight(flights, *number);
    }
    mark
}

/// The bit of the place where the flight of this number arrives, or none.
fn bit_of_flight(flights: &[Flight], number: u32) -> u64
    ensures { (f : DatedFlight) → slice_get flights.now number ≡ Some f → result ≡ 2 ^ place_bit f.to }
{
    match flights.get(number as usize) {
        Some(flight) => bit_of(flight.to),
        None => 0,
    }
}

/// The mark of places.
pub fn mark_of(places: &[Place]) -> u64
    ensures { HasBits result places.now }
{
    let mut mark = 0;
    for place in places {
        mark |= bit_of(*place);
    }
    mark
}

/// The bit of a place.
pub fn bit_of(place: Place) -> u64
    ensures { result ≡ 2 ^ place_bit place }
{
    let [a, b, c] = place.0;
    1 << ((u32::from(a) * 676 + u32::from(b) * 26 + u32::from(c)) % 64)
}
