//! What may be wrong with one flight row by itself.
ghost use Rattle.std.specs.Prelude.{◌≡◌, ◌↔◌, ◌≤ℤ◌, ◌<ℤ◌, ◌+ℤ◌, pos, IsTrue, IfNone, IfSome};
ghost use Rattle.fare_law.specs.Flights.{instant};
ghost use Rattle.schedule_book.specs.Faults.{IsKnown, NoOwnFault, OwnFault};

use crate::SchedFault;
use crate::places::Places;
use crate::row_days::{arrival, departure};
use fare_law::FlightRow;

/// The first fault of a row that doesn't depend on the rows before it.
pub fn own_fault(row: &FlightRow, places: &Places) -> Option<SchedFault>
    ensures none { IfNone result (NoOwnFault places.now row.now) }
    ensures some { IfSome result (OwnFault places.now row.now) }
{
    let line = row.line;
    if !has_places(row, places) {
        return Some(SchedFault::UnknownPlace { line });
    }
    if stays(row) {
        return Some(SchedFault::SamePlace { line });
    }
    if !has_period(row) {
        return Some(SchedFault::BadPeriod { line });
    }
    if !arrives_later(row) {
        return Some(SchedFault::ArrivesBefore { line });
    }
    None
}

/// Whether both places of a row are known.
fn has_places(row: &FlightRow, places: &Places) -> bool
    ensures { IsTrue result ↔ (IsKnown row.now.from places.now × IsKnown row.now.to places.now) }
{
    places.knows(row.from) && places.knows(row.to)
}

/// Whether a row goes from a place to itself.
fn stays(row: &FlightRow) -> bool
    ensures { IsTrue result ↔ (row.now.from ≡ row.now.to) }
{
    row.from == row.to
}

/// Whether the last day is at most 365 days after the first, and not before it.
fn has_period(row: &FlightRow) -> bool
    ensures { IsTrue result ↔ ((row.now.first ≤ℤ row.now.last) × (row.now.last ≤ℤ (row.now.first +ℤ pos 365))) }
{
    row.first <= row.last && day_number(row.last) <= year_after(row.first)
}

/// Whether a flight of the row arrives later than it departs.
fn arrives_later(row: &FlightRow) -> bool
    ensures { IsTrue result ↔ (instant row.now.first row.now.dep row.now.dep_offset <ℤ instant (row.now.first +ℤ row.now.shift) row.now.arr row.now.arr_offset) }
{
    departure(row, row.first) < arrival(row, row.first)
}

/// A day as a wider number.
fn day_number(day: i32) -> i64
    ensures { result ≡ day }
{
    i64::from(day)
}

/// The day 365 days after a day.
fn year_after(day: i32) -> i64
    ensures { result ≡ (day +ℤ pos 365) }
{
    i64::from(day) + 365
}
