//! Marks of places: a bit for each, so that lists of places whose marks share no bit share no place.
ghost use Rattle.std.specs.Prelude.{◌≡◌, ◌^◌, List as Items};
ghost use Rattle.fare_law.specs.declared.flights.Flight.{Flight as DatedFlight};
ghost use Rattle.fare_law.specs.Parts.{Numbers};
ghost use Rattle.flight_paths.specs.Marks.{HasBits, place_bit};
ghost use Rattle.flight_paths.specs.Ways.{arrivals_of};

use fare_ends::TableCase;
use fare_law::Place;

/// The mark of the places where the flights of these numbers arrive.
pub fn mark_of(case: &TableCase<'_>, numbers: &[u32]) -> u64
    requires { (fs : Items DatedFlight) × Numbers case.now.book.now numbers.now fs }
    ensures { (fs : Items DatedFlight) → Numbers case.now.book.now numbers.now fs → HasBits result (arrivals_of fs) }
{
    let all = case.flights();
    let mut mark = 0;
    for number in numbers {
        mark |= bit_of(all[*number as usize].to);
    }
    mark
}

/// The bit of a place.
pub fn bit_of(place: Place) -> u64
    ensures { result ≡ 2 ^ place_bit place }
{
    let [a, b, c] = place.0;
    1 << ((u32::from(a) * 676 + u32::from(b) * 26 + u32::from(c)) % 64)
}
