//! The command `calendar`: what the best ticket of each pair of days costs.
ghost use Rattle.std.specs.Prelude.{◌≡◌, ◌≤◌, length, IfOk};
ghost use Rattle.fare_calendar.specs.CalendarText.{HasDates};
ghost use Rattle.fare_calendar.specs.Calendars.{IsCalendar};
ghost use Rattle.fare_law.specs.Lists.{Each};
ghost use Rattle.lowfare.specs.Calendars.{TellsCells};
ghost use Rattle.lowfare.specs.Inputs.{most_bytes};
ghost use Rattle.lowfare.specs.Makes.{IsEnd, Makes};
ghost use Rattle.program_words.specs.declared.commands.Command.TheVariants.{Calendar};

use crate::Status;
use crate::cases::calendar_case;
use crate::outcomes::{Outcome, refused};
use fare_calendar::{CalendarFault, Cell, Spans, calendar, push_calendar};
use fare_law::{List, Mem};
use std::alloc::Global;
use whole_case::{CalendarCase, LoadFault, spelled_calendars_fit, spelled_requests_are_right};

/// What a calendar makes of the bytes of its input: for each pair of days the price of the best ticket, that there is
/// none, or that more residuals are reached than the budget; or the first refusal.
pub(crate) fn days_priced(
    alloc: Global,
    bytes: List<u8>,
    spans: Spans,
    budget: u32,
    at: Option<u32>,
) -> Result<Outcome, Mem>
    requires { length bytes ≤ most_bytes }
    ensures makes { IfOk result (λ o. Makes (Calendar spans.outs spans.backs budget at) bytes o.status o.text) }
    ensures ends { IfOk result (λ o. IsEnd o.status) }
{
    let found = match calendar_case(alloc, bytes, spans, at) {
        Ok(found) => found,
        Err(LoadFault::Mem) => return Err(Mem),
        Err(LoadFault::Refused(refusal)) => return refused(alloc, &refusal),
    };
    spelled_requests_are_right();
    spelled_calendars_fit();
    match calendar(alloc, &found.book, &found.request, spans, budget) {
        Ok(cells) => told(alloc, &found, spans, budget, cells.as_slice()),
        Err(fault) => Err(want_of_memory(fault)),
    }
}

/// The one fault of a request that has a calendar.
fn want_of_memory(fault: CalendarFault) -> Mem
    requires { fault ≡ CalendarFault.Mem }
{
    match fault {
        CalendarFault::Mem => Mem,
        _ => unreachable!(),
    }
}

/// The version of a case and its calendar.
fn told(
    alloc: Global,
    found: &CalendarCase,
    spans: Spans,
    budget: u32,
    cells: &[Cell],
) -> Result<Outcome, Mem>
    requires cells { IsCalendar found.now.book found.now.request spans budget cells.now }
    requires dates { Each HasDates cells.now }
    ensures status { IfOk result (λ o. o.status ≡ Status.Done) }
    ensures text { IfOk result (λ o. TellsCells spans budget found.now o.text) }
{
    let number = found.book.number();
    let mut text = format!(in alloc; "version {number}\n")?.into_bytes();
    push_calendar(&mut text, spans, cells)?;
    Ok(Outcome {
        status: Status::Done,
        text: List::from_vec(text),
    })
}
