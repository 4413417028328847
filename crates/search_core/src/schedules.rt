//! The schedule of a book.
ghost use Rattle.std.specs.Prelude.{◌≡◌};

use fare_book::Book;
use schedule_book::Schedule;

/// The schedule of a book.
pub fn schedule_of(book: &Book) -> &Schedule
    ensures places { result.now.places ≡ book.now.timetable.places }
    ensures flights { result.now.flights ≡ book.now.timetable.flights }
{
    book.timetable().schedule()
}
