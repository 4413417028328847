//! The calendar of a book.
ghost use Rattle.std.specs.Prelude.{◌≡◌, IfOk};
ghost use Rattle.fare_calendar.specs.CalendarText.{HasDates};
ghost use Rattle.fare_calendar.specs.Calendars.{IsCalendar};
ghost use Rattle.fare_law.specs.Lists.{Each};
ghost use Rattle.lowfare.specs.Calendars.{TellsCells};
ghost use Rattle.shop_book.specs.Asked.{calendar_reason, priced_case};
ghost use Rattle.shop_book.specs.Replies.{Priced, TellsReason};
ghost use Rattle.whole_case.specs.Refusals.{refused_at};

use crate::asking::request_in;
use crate::replies::Replied;
use fare_book::Book;
use fare_calendar::{CalendarFault, Cell, Spans, calendar, push_calendar};
use fare_law::{List, Mem, Request};
use lowfare::{Outcome, Status, refused};
use std::alloc::Global;
use whole_case::{LoadFault, Reason, Refusal};

/// What a calendar of the book replies to the request that the bytes spell: for each pair of days the price of the
/// best ticket, that there is none, or that more residuals are reached than the budget; or the request's refusal.
pub fn calendar_text(
    alloc: Global,
    book: &Book,
    request: &[u8],
    spans: Spans,
    budget: u32,
) -> Replied
    ensures { IfOk result (λ r. Priced book.now spans budget request.now r.status r.text) }
{
    let asked = match request_in(alloc, book, request, None) {
        Ok(asked) => asked,
        Err(LoadFault::Refused(refusal)) => return refused(alloc, &refusal),
        Err(LoadFault::Mem) => return Err(Mem),
    };
    match calendar(alloc, book, &asked, spans, budget) {
        Ok(cells) => told(alloc, book, &asked, spans, budget, cells.as_slice()),
        Err(fault) => faulted(alloc, fault),
    }
}

/// The refusal of a request that has no such calendar.
fn faulted(alloc: Global, fault: CalendarFault) -> Replied
    ensures status { IfOk result (λ r. r.status ≡ Status.Refused) }
    ensures text { IfOk result (λ r. TellsReason (calendar_reason fault) r.text) }
{
    match fault {
        CalendarFault::BadRequest(why) => refused(alloc, &first_line(Reason::BadRequest(why))),
        CalendarFault::NotTwo => refused(alloc, &first_line(Reason::NotTwo)),
        CalendarFault::Span => refused(alloc, &first_line(Reason::Span)),
        CalendarFault::Mem => Err(Mem),
    }
}

/// A reason at the one line of a request.
fn first_line(reason: Reason) -> Refusal
    ensures { result ≡ refused_at 1 reason }
{
    Refusal { line: 1, reason }
}

/// The version of a book and a calendar.
fn told(
    alloc: Global,
    book: &Book,
    request: &Request,
    spans: Spans,
    budget: u32,
    cells: &[Cell],
) -> Replied
    requires cells { IsCalendar book.now request.now spans budget cells.now }
    requires dates { Each HasDates cells.now }
    ensures status { IfOk result (λ r. r.status ≡ Status.Done) }
    ensures text { IfOk result (λ r. TellsCells spans budget (priced_case book.now request.now) r.text) }
{
    let number = book.number();
    let mut text = format!(in alloc; "version {number}\n")?.into_bytes();
    push_calendar(&mut text, spans, cells)?;
    Ok(Outcome {
        status: Status::Done,
        text: List::from_vec(text),
    })
}
