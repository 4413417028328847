//! What a calendar asks of a request.
ghost use Rattle.std.specs.Prelude.{◌≡◌};
ghost use Rattle.whole_case.specs.Calendars as Calendars;
ghost use Rattle.whole_case.specs.Stages.{Reads};

use crate::reasons::refused_at;
use crate::{LoadFault, Reason};
use fare_law::{LAST_DAY, Request, Slice};

/// The day after the last one of the calendar.
const PAST_THE_LAST: i64 = LAST_DAY as i64 + 1;

/// That the request of a line has two slices.
pub fn check_two(line: u32, request: &Request) -> Result<(), LoadFault>
    ensures { Reads result (Calendars.has_two line request.now) }
{
    if request.slices.len() == 2 {
        Ok(())
    } else {
        Err(refused_at(line, Reason::NotTwo))
    }
}

/// That the two slices of the request of a line have so many days out and so many back.
pub fn check_spans(line: u32, request: &Request, outs: u8, backs: u8) -> Result<(), LoadFault>
    ensures { Reads result (Calendars.has_spans outs backs line request.now) }
{
    if spans_fit(request.slices.as_slice(), outs, backs) {
        Ok(())
    } else {
        Err(refused_at(line, Reason::Span))
    }
}

/// Whether there are two slices, with so many days out and so many back.
fn spans_fit(slices: &[Slice], outs: u8, backs: u8) -> bool
    ensures { result ≡ Calendars.spans_fit outs backs slices.now }
{
    match slices {
        [out, back] => span_fits(out, outs) && span_fits(back, backs),
        _ => false,
    }
}

/// Whether there are 1 to 31 days from the first day of the slice on, up to 2099-12-31.
fn span_fits(slice: &Slice, days: u8) -> bool
    ensures { result ≡ Calendars.span_fits days slice.now }
{
    1 <= days && days <= 31 && i64::from(slice.first) + i64::from(days) <= PAST_THE_LAST
}
