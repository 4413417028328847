//! The case of a serving run.
ghost use Rattle.std.specs.Prelude.{◌≤◌, ◌<◌, ◌+◌, ◌^◌, length, IfOk};
ghost use Rattle.fare_law.specs.FilingLimits.{IsFiling};
ghost use Rattle.fare_law.specs.Lists.{Each};
ghost use Rattle.script_text.specs.Script.{IsScript};
ghost use Rattle.whole_case.specs.ServeCases as ServeCases;
ghost use Rattle.whole_case.specs.Stages.{Reads};

use crate::LoadFault;
use crate::books::{FiledCase, filed_case};
use crate::scripts::script_in;
use crate::serve_lines::{asked_requests, later_filings};
use case_text::{CaseKind, MOST_FILINGS, MOST_REQUESTS};
use fare_book::Book;
use fare_law::{Filing, List, Request};
use script_text::Script;
use std::alloc::Global;

/// The book that a serving run begins with, the filings that come while it runs, what is asked, and the script.
#[derive(Drop)]
pub struct ServeCase {
    pub book: Book,
    /// They are read, and not taken by any book.
    pub later: List<Filing>,
    pub requests: List<Request>,
    pub script: Script,
}

/// What comes while a serving run goes on, and what it is asked.
#[derive(Drop)]
struct Asks {
    later: List<Filing>,
    requests: List<Request>,
    script: Script,
}

/// The case of a serving run that the bytes spell, or its first refusal, by stages. Each request is judged as it stands,
/// and then `best` replaces its number of tickets. A script without a line is at fault in line 0.
pub fn load_serve_case(
    alloc: Global,
    bytes: &[u8],
    best: Option<u16>,
) -> Result<ServeCase, LoadFault>
    requires { length bytes.now + 1 < 2 ^ 32 }
    ensures case { Reads result (ServeCases.serve_case best bytes.now) }
    ensures later { IfOk result (λ found. Each IsFiling found.later) }
    ensures script { IfOk result (λ found. IsScript (length found.later) (length found.requests) found.script) }
{
    let filed = filed_case(alloc, bytes, CaseKind::Serve, None)?;
    let asks = asks_in(alloc, &filed, best)?;
    Ok(ServeCase {
        book: filed.into_book(),
        later: asks.later,
        requests: asks.requests,
        script: asks.script,
    })
}

/// What the lines after the filings of a serving run's case give.
fn asks_in(alloc: Global, filed: &FiledCase<'_>, best: Option<u16>) -> Result<Asks, LoadFault>
    requires later { length filed.now.later ≤ MOST_FILINGS }
    requires requests { length filed.now.requests ≤ MOST_REQUESTS }
    ensures asks { Reads result (ServeCases.asks_in best filed.now) }
    ensures later { IfOk result (λ asks. Each IsFiling asks.later) }
    ensures script { IfOk result (λ asks. IsScript (length asks.later) (length asks.requests) asks.script) }
{
    let later = later_filings(alloc, &filed.later)?;
    let requests = asked_requests(alloc, &filed.book, &filed.requests, best)?;
    let script = script_in(alloc, &filed.script, &later, &requests)?;
    Ok(Asks {
        later,
        requests,
        script,
    })
}
