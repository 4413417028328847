//! What a flight adds to the home of a key.
ghost use Rattle.std.specs.Prelude.{◌≡◌, ◌*◌, ◌<◌, ◌≤◌, ◌^◌};
ghost use Rattle.fare_component.specs.Homes.{flight_number};

use fare_law::{Flight, MOST_FLIGHTS_OF_A_COMPONENT};

/// What a flight adds to the home of a key: its number, so many times.
pub fn weighed(times: usize, flight: &Flight) -> usize
    requires { times ≤ MOST_FLIGHTS_OF_A_COMPONENT }
    ensures value { result ≡ times * flight_number flight.now }
    ensures low { result < 2 ^ 47 }
{
    times * flight_number(flight)
}

/// The number of a flight, by its day and its own number.
fn flight_number(flight: &Flight) -> usize
    ensures value { result ≡ flight_number flight.now }
    ensures low { result < 2 ^ 45 }
{
    10000 * flight.day.unsigned_abs() as usize + flight.number as usize
}
