//! A path of a residual, with what is known of its flights.
ghost use Rattle.std.specs.Prelude.{◌≡◌, All, List};
ghost use Rattle.fare_law.specs.declared.flights.Flight.{Flight as DatedFlight};
ghost use Rattle.fare_law.specs.Limits.{IsFlight};
ghost use Rattle.residual_keys.specs.Gathered.{AreLegs, IsPathOf};
ghost use Rattle.residual_keys.specs.Residuals.{State};

use crate::component::{flights_of, legs_of};
use fare_book::Book;
use fare_law::{ArrayVec, Flight, Leg, MOST_FLIGHTS_OF_A_COMPONENT, Request};
use flight_paths::Path;

/// A path of a residual, with its flights, and these as legs with the seats for the party.
#[derive(Drop)]
pub struct Way {
    pub path: Path,
    pub flights: ArrayVec<Flight, MOST_FLIGHTS_OF_A_COMPONENT>,
    pub legs: ArrayVec<Leg, MOST_FLIGHTS_OF_A_COMPONENT>,
}

impl Way {
    /// The way of a path of some residual.
    pub fn of(book: &Book, request: &Request, path: &Path) -> Way
        requires { (r : State) × (fs : List DatedFlight) × IsPathOf book.now request.now r path.now fs }
        ensures path { result.path ≡ path.now }
        ensures flights { (r : State) (fs : List DatedFlight) → IsPathOf book.now request.now r path.now fs → result.flights ≡ fs }
        ensures limits { All IsFlight result.flights }
        ensures legs { AreLegs book.now request.now result.flights result.legs }
    {
        let flights = flights_of(book, path.flights.as_slice());
        let legs = legs_of(book, request.party, flights.as_slice());
        Way {
            path: path.copied(),
            flights,
            legs,
        }
    }
}
