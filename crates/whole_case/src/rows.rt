//! The form of a case, and the book of its rows.
ghost use Rattle.std.specs.Prelude.{◌≡◌, ◌≤◌, ◌<◌, ◌+◌, ◌^◌, [], length, IfOk};
ghost use Rattle.case_text.specs.Limits.{IsCase};
ghost use Rattle.fare_law.specs.Limits.{IsFlightRow, IsPlaceRow};
ghost use Rattle.fare_law.specs.Lists.{Each};
ghost use Rattle.whole_case.specs.Stages.{Reads};
ghost use Rattle.whole_case.specs.Timetables as Timetables;

use crate::reasons::{of_form, of_rows, refused_at};
use crate::{LoadFault, Reason};
use case_text::{Case, CaseKind, sections};
use fare_book::Book;
use fare_law::{FlightRow, List, MOST_SEAT_ROWS, PlaceRow, SeatRow};
use schedule_book::Schedule;
use seat_classes::SeatFault;
use std::alloc::Global;

/// The sections of a case of this kind.
pub fn sections_in(alloc: Global, bytes: &[u8], kind: CaseKind) -> Result<Case<'_>, LoadFault>
    requires { length bytes.now + 1 < 2 ^ 32 }
    ensures case { Reads result (Timetables.sections_in kind bytes.now) }
    ensures limits { IfOk result (IsCase kind) }
{
    match sections(alloc, bytes, kind) {
        Ok(case) => Ok(case),
        Err(fault) => Err(of_form(fault)),
    }
}

/// The book of the timetable of these rows, before any filing.
pub fn opening_of(
    alloc: Global,
    places: List<PlaceRow>,
    flights: List<FlightRow>,
    seats: List<SeatRow>,
) -> Result<Book, LoadFault>
    requires places { Each IsPlaceRow places }
    requires flights { Each IsFlightRow flights }
    requires seats { length seats ≤ MOST_SEAT_ROWS }
    ensures book { Reads result (Timetables.opening_of places flights seats) }
    ensures empty { IfOk result (λ book. book.entries ≡ []) }
{
    book_of(
        alloc,
        places.as_slice(),
        flights.as_slice(),
        seats.as_slice(),
    )
}

/// The same of rows that stand beside each other.
fn book_of(
    alloc: Global,
    places: &[PlaceRow],
    flights: &[FlightRow],
    seats: &[SeatRow],
) -> Result<Book, LoadFault>
    requires places { Each IsPlaceRow places.now }
    requires flights { Each IsFlightRow flights.now }
    requires seats { length seats.now ≤ MOST_SEAT_ROWS }
    ensures book { Reads result (Timetables.opening_of places.now flights.now seats.now) }
    ensures empty { IfOk result (λ book. book.entries ≡ []) }
{
    let schedule = match Schedule::build(alloc, places, flights) {
        Ok(schedule) => schedule,
        Err(fault) => return Err(of_rows(fault)),
    };
    match Book::empty(alloc, schedule, seats) {
        Ok(book) => Ok(book),
        Err(SeatFault::Twice { line }) => Err(refused_at(line, Reason::Twice)),
        Err(SeatFault::Mem) => Err(LoadFault::Mem),
    }
}
