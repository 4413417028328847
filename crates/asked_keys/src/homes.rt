//! The home of the keys over a path, found by its flights alone.
ghost use Rattle.std.specs.Prelude.{◌≡◌, ◌*◌, ◌<◌, ◌≤◌, ◌^◌, Some, slice_get};
ghost use Rattle.fare_component.specs.Homes.{flight_number, home_of};
ghost use Rattle.fare_component.specs.Keys.{Asked as Asking};
ghost use Rattle.fare_law.specs.declared.flights.Flight.{Flight as DatedFlight};
ghost use Rattle.fare_law.specs.Offers.{flights_of};
ghost use Rattle.fare_law.specs.Parts.{Numbers};

use crate::served::schedule_of;
use fare_book::Book;
use fare_component::weighed;
use fare_law::{Flight, MOST_FLIGHTS_OF_A_COMPONENT};
use flight_paths::Path;

/// The home of all keys over the flights of a path.
pub fn home_over(book: &Book, path: &Path) -> usize
    ensures value { (a : Asking) → Numbers book.now path.now.flights (flights_of a.legs) → result ≡ home_of a }
    ensures low { result < 2 ^ 50 }
{
    let all = schedule_of(book).flights();
    let mut home = 0;
    let mut times = 1;
    for number in path.flights.as_slice() {
        home += weighed_at(all, *number, times);
        times += 1;
    }
    home
}

/// What the flight of a number adds to a home.
fn weighed_at(all: &[Flight], number: u32, times: usize) -> usize
    requires { times ≤ MOST_FLIGHTS_OF_A_COMPONENT }
    ensures value { (f : DatedFlight) → slice_get all.now number ≡ Some f → result ≡ times * flight_number f }
    ensures low { result < 2 ^ 47 }
{
    match all.get(number as usize) {
        Some(flight) => weighed(times, flight),
        None => 0,
    }
}
