//! Places where paths are wanted to end, and the tails that end there.
ghost use Rattle.std.specs.Prelude.{◌≡◌, ◌<◌, ℕ, Bool, List as Items, filter, length, IfOk};
ghost use Rattle.fare_law.specs.declared.names.Place.{Place as PlaceName};
ghost use Rattle.fare_law.specs.declared.requests.Slice.{Slice as RequestSlice};
ghost use Rattle.fare_law.specs.Book.{Book};
ghost use Rattle.fare_law.specs.Lists.{Each};
ghost use Rattle.flight_paths.specs.Heads.{AreTails, TailsTo, chosen, ends_wanted, last_wanted, number_wanted};
ghost use Rattle.flight_paths.specs.Plans.{HasPlan};

use crate::Path;
use fare_law::{Flight, List, Mem, Place};
use schedule_book::Schedule;
use std::alloc::Global;

/// Tells at which places paths are wanted to end.
pub trait Ends {
    // Whether an end is wanted.
    ghost wanted: { Self → PlaceName → Bool };

    /// Whether an end is wanted.
    fn wants(&self, place: Place) -> bool
        ensures { result ≡ wanted self.now place };
}

/// The numbers of the tails that end where they are wanted, in their order. A caller keeps them for all
/// positions at one place.
pub fn tails_to<E: Ends>(
    alloc: Global,
    schedule: &Schedule,
    tails: &[Path],
    ends: &E,
) -> Result<List<usize>, Mem>
    ensures within { IfOk result (λ numbers. Each (λ n. n < length tails.now) numbers) }
    ensures those { IfOk result (λ numbers. chosen tails.now numbers ≡ filter (ends_wanted schedule.now.flights (E.wanted ends.now)) tails.now) }
    ensures tails { IfOk result (λ numbers. (b : Book) (slices : Items RequestSlice) (i : ℕ) → HasPlan b schedule.now → AreTails b slices i tails.now → TailsTo b slices i (E.wanted ends.now) (chosen tails.now numbers)) }
{
    let flights = schedule.flights();
    let mut numbers = List::new(alloc);
    for (number, tail) in tails.iter().enumerate() {
        if ends_wanted(flights, tail.flights.as_slice(), ends) {
            numbers.push(number)?;
        }
    }
    Ok(numbers)
}

/// Whether the last of the flights of these numbers ends at a wanted place.
fn ends_wanted<E: Ends>(flights: &[Flight], numbers: &[u32], ends: &E) -> bool
    ensures { result ≡ last_wanted flights.now (E.wanted ends.now) numbers.now }
{
    match numbers {
        [.., last] => is_wanted(flights, *last, ends),
        [] => false,
    }
}

/// Whether the flight of this number ends at a wanted place.
fn is_wanted<E: Ends>(flights: &[Flight], number: u32, ends: &E) -> bool
    ensures { result ≡ number_wanted flights.now (E.wanted ends.now) number }
{
    match flights.get(number as usize) {
        Some(flight) => ends.wants(flight.to),
        None => false,
    }
}
