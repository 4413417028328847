//! The later filings and the requests of a serving run, line by line.
ghost use Rattle.std.specs.Prelude.{◌≡◌, length, IfOk};
ghost use Rattle.fare_law.specs.FilingLimits.{IsFiling};
ghost use Rattle.fare_law.specs.Lists.{Each};
ghost use Rattle.whole_case.specs.Filings.{filing_in as spelled_filing};
ghost use Rattle.whole_case.specs.ServeCases as ServeCases;
ghost use Rattle.whole_case.specs.Stages.{Reads};

use crate::LoadFault;
use crate::filings::filing_in;
use crate::requests::{request_in, with_best};
use case_text::CaseLine;
use fare_book::Book;
use fare_law::{Filing, List, Request};
use std::alloc::Global;

/// The filings of these lines, within their limits.
pub fn later_filings(alloc: Global, lines: &List<CaseLine<'_>>) -> Result<List<Filing>, LoadFault>
    ensures filings { Reads result (ServeCases.each_of spelled_filing lines.now) }
    ensures limits { IfOk result (Each IsFiling) }
    ensures count { IfOk result (λ filings. length filings ≡ length lines.now) }
{
    filings_in(alloc, lines.as_slice())
}

fn filings_in(alloc: Global, lines: &[CaseLine<'_>]) -> Result<List<Filing>, LoadFault>
    ensures filings { Reads result (ServeCases.each_of spelled_filing lines.now) }
    ensures limits { IfOk result (Each IsFiling) }
    ensures count { IfOk result (λ filings. length filings ≡ length lines.now) }
{
    let mut filings = List::new(alloc);
    for line in lines {
        let filing = filing_in(alloc, line)?;
        filings.push(filing)?;
    }
    Ok(filings)
}

/// The requests of these lines, which break no limit in the book, each with another number of tickets where one is given.
pub fn asked_requests(
    alloc: Global,
    book: &Book,
    lines: &List<CaseLine<'_>>,
    best: Option<u16>,
) -> Result<List<Request>, LoadFault>
    ensures requests { Reads result (ServeCases.each_of (ServeCases.asked_in best book.now) lines.now) }
    ensures count { IfOk result (λ requests. length requests ≡ length lines.now) }
{
    requests_in(alloc, book, lines.as_slice(), best)
}

fn requests_in(
    alloc: Global,
    book: &Book,
    lines: &[CaseLine<'_>],
    best: Option<u16>,
) -> Result<List<Request>, LoadFault>
    ensures requests { Reads result (ServeCases.each_of (ServeCases.asked_in best book.now) lines.now) }
    ensures count { IfOk result (λ requests. length requests ≡ length lines.now) }
{
    let mut requests = List::new(alloc);
    for line in lines {
        let request = asked_request(alloc, book, line, best)?;
        requests.push(request)?;
    }
    Ok(requests)
}

/// The request of one of these lines.
fn asked_request(
    alloc: Global,
    book: &Book,
    line: &CaseLine<'_>,
    best: Option<u16>,
) -> Result<Request, LoadFault>
    ensures { Reads result (ServeCases.asked_in best book.now line.now) }
{
    let request = request_in(alloc, book, line)?;
    Ok(with_best(request, best))
}
