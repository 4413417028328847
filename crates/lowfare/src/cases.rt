//! The cases that inputs spell. A case has nothing of the text that it is read from, so an input is let go as soon as
//! its case is read, before the command begins its work.
ghost use Rattle.std.specs.Prelude.{◌≤◌, length, IfOk};
ghost use Rattle.certificate_text.specs.CertText.{IsCertificate};
ghost use Rattle.fare_law.specs.FilingLimits.{IsFiling};
ghost use Rattle.fare_law.specs.Lists.{Each};
ghost use Rattle.lowfare.specs.Inputs.{most_bytes};
ghost use Rattle.script_text.specs.Script.{IsScript};
ghost use Rattle.whole_case.specs.Cases as Cases;
ghost use Rattle.whole_case.specs.ServeCases as ServeCases;
ghost use Rattle.whole_case.specs.Stages.{Reads};

use fare_calendar::Spans;
use fare_law::List;
use std::alloc::Global;
use whole_case::{
    CalendarCase, CheckCase, LoadFault, SearchCase, ServeCase, VerdictCase, load_calendar_case,
    load_check_case, load_search_case, load_serve_case, load_verdict_case,
};

/// The case of a search, or its first refusal.
pub(crate) fn search_case(
    alloc: Global,
    bytes: List<u8>,
    best: Option<u16>,
    at: Option<u32>,
) -> Result<SearchCase, LoadFault>
    requires { length bytes ≤ most_bytes }
    ensures { Reads result (Cases.search_case best at bytes) }
{
    load_search_case(alloc, bytes.as_slice(), best, at)
}

/// The case of a check, or its first refusal.
pub(crate) fn check_case(
    alloc: Global,
    bytes: List<u8>,
    best: Option<u16>,
    at: Option<u32>,
) -> Result<CheckCase, LoadFault>
    requires { length bytes ≤ most_bytes }
    ensures case { Reads result (Cases.check_case best at bytes) }
    ensures limits { IfOk result (λ found. IsCertificate found.certificate) }
{
    load_check_case(alloc, bytes.as_slice(), best, at)
}

/// The case of a calendar, or its first refusal.
pub(crate) fn calendar_case(
    alloc: Global,
    bytes: List<u8>,
    spans: Spans,
    at: Option<u32>,
) -> Result<CalendarCase, LoadFault>
    requires { length bytes ≤ most_bytes }
    ensures { Reads result (Cases.calendar_case spans.outs spans.backs at bytes) }
{
    load_calendar_case(alloc, bytes.as_slice(), spans.outs, spans.backs, at)
}

/// The case of a verdict, or its first refusal.
pub(crate) fn verdict_case(
    alloc: Global,
    bytes: List<u8>,
    at: Option<u32>,
) -> Result<VerdictCase, LoadFault>
    requires { length bytes ≤ most_bytes }
    ensures { Reads result (Cases.verdict_case at bytes) }
{
    load_verdict_case(alloc, bytes.as_slice(), at)
}

/// The case of a serving run, or its first refusal.
pub(crate) fn serve_case(
    alloc: Global,
    bytes: List<u8>,
    best: Option<u16>,
) -> Result<ServeCase, LoadFault>
    requires { length bytes ≤ most_bytes }
    ensures case { Reads result (ServeCases.serve_case best bytes) }
    ensures later { IfOk result (λ found. Each IsFiling found.later) }
    ensures script { IfOk result (λ found. IsScript (length found.later) (length found.requests) found.script) }
{
    load_serve_case(alloc, bytes.as_slice(), best)
}
