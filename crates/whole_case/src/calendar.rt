//! The case of a calendar.
ghost use Rattle.std.specs.Prelude.{◌<◌, ◌+◌, ◌^◌, length};
ghost use Rattle.whole_case.specs.Cases as Cases;
ghost use Rattle.whole_case.specs.Stages.{Reads};

use crate::LoadFault;
use crate::asked::{AskedCase, asked_case};
use crate::histories::check_version;
use crate::spans::{check_spans, check_two};
use case_text::CaseKind;
use fare_book::Book;
use fare_law::Request;
use std::alloc::Global;

/// The version of the book that a calendar is about, and what is asked: a request of two slices, each
/// with the days of the calendar.
#[derive(Drop)]
pub struct CalendarCase {
    pub book: Book,
    pub request: Request,
}

/// The case of a calendar of so many days out and so many back that the bytes spell, or its first
/// refusal, by stages. It has the sections of a search. `at` names a version, by default the last.
pub fn load_calendar_case(
    alloc: Global,
    bytes: &[u8],
    outs: u8,
    backs: u8,
    at: Option<u32>,
) -> Result<CalendarCase, LoadFault>
    requires { length bytes.now + 1 < 2 ^ 32 }
    ensures { Reads result (Cases.calendar_case outs backs at bytes.now) }
{
    let asked = asked_case(alloc, bytes, CaseKind::Search, at)?;
    check_days(&asked, outs, backs, at)?;
    let (book, request) = asked.into_parts();
    Ok(CalendarCase { book, request })
}

/// That the request of a case that has the version of this number has the days of a calendar.
fn check_days(asked: &AskedCase<'_>, outs: u8, backs: u8, at: Option<u32>) -> Result<(), LoadFault>
    ensures { Reads result (Cases.has_days outs backs at asked.now) }
{
    check_two(asked.line, &asked.request)?;
    check_spans(asked.line, &asked.request, outs, backs)?;
    check_version(at, &asked.filings)
}
