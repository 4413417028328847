//! What is known of the flights of a path.
ghost use Rattle.std.specs.Prelude.{◌≡◌, ◌≢◌, ◌≤◌, [], IfNone, IfSome, List as Items, length, option_copied, slice_get};
ghost use Rattle.fare_ends.specs.NumberedFlights.{BeginsWith, EndsWith};
ghost use Rattle.fare_law.specs.declared.flights.Flight.{Flight as DatedFlight};
ghost use Rattle.fare_law.specs.Parts.{Numbers};
ghost use Rattle.flight_paths.specs.Plans.{HasPlan};

use fare_book::Book;
use fare_law::Flight;
use schedule_book::Schedule;

/// The places and the flights of a book.
pub fn schedule_of(book: &Book) -> &Schedule
    ensures { HasPlan book.now result.now }
{
    book.timetable().schedule()
}

/// The flight of this number, if there is one.
pub fn flight_of(all: &[Flight], number: u32) -> Option<&Flight>
    ensures { option_copied result ≡ slice_get all.now number }
{
    all.get(number as usize)
}

/// The first of the flights of these numbers. None where there is no number, or the first is that of no flight.
pub fn first_flight<'a>(book: &'a Book, numbers: &[u32]) -> Option<&'a Flight>
    ensures some { IfSome result (λ f. BeginsWith book.now numbers.now f.now) }
    ensures none { IfNone result ((fs : Items DatedFlight) → Numbers book.now numbers.now fs → numbers.now ≢ [] → ⊥) }
{
    let all = schedule_of(book).flights();
    match numbers {
        [first, ..] => match flight_of(all, *first) {
            Some(flight) => Some(flight),
            None => None,
        },
        [] => None,
    }
}

/// The last of the flights of these numbers. None where there is no number, or the last is that of no flight.
pub fn last_flight<'a>(book: &'a Book, numbers: &[u32]) -> Option<&'a Flight>
    ensures some { IfSome result (λ f. (1 ≤ length numbers.now) × EndsWith book.now numbers.now f.now) }
    ensures none { IfNone result ((fs : Items DatedFlight) → Numbers book.now numbers.now fs → numbers.now ≢ [] → ⊥) }
{
    let all = schedule_of(book).flights();
    match numbers {
        [.., last] => match flight_of(all, *last) {
            Some(flight) => Some(flight),
            None => None,
        },
        [] => None,
    }
}
