//! The calendar of a request.
ghost use Rattle.std.specs.Prelude.{◌≡◌, IfErr, IfOk};
ghost use Rattle.fare_calendar.specs.CalendarText.{HasDates};
ghost use Rattle.fare_calendar.specs.Calendars.{HasCause, IsCalendar};
ghost use Rattle.fare_law.specs.Lists.{Each};

use crate::asking::spans_fit;
use crate::cells::cells_of;
use crate::columns::Asked;
use crate::{CalendarFault, Cell, Spans};
use fare_book::Book;
use fare_law::{List, Request};
use search_core::request_ok;
use std::alloc::Global;

/// For a request of two slices the cells of its calendar: of each day out and, within it, each day back what the best
/// ticket costs that leaves and returns on these days, or that there is none, or that the search of these days reaches
/// more residuals than the budget. The days of each slice go from the first day of its window on, as many as the spans
/// say; the request's own numbers of days and of tickets are judged and have no further effect.
pub fn calendar(
    alloc: Global,
    book: &Book,
    request: &Request,
    spans: Spans,
    budget: u32,
) -> Result<List<Cell>, CalendarFault>
    ensures cells { IfOk result (IsCalendar book.now request.now spans budget) }
    ensures dates { IfOk result (Each HasDates) }
    ensures cause { IfErr result (HasCause book.now request.now spans) }
{
    request_ok(book, request)?;
    let slices = request.slices.as_slice();
    if slices.len() != 2 {
        return Err(CalendarFault::NotTwo);
    }
    if !spans_fit(slices, spans) {
        return Err(CalendarFault::Span);
    }
    let asked = Asked {
        book,
        request,
        spans,
        budget,
    };
    Ok(cells_of(alloc, &asked)?)
}
