//! The filings of a case: each is read, and then taken by the book that those before it leave.
ghost use Rattle.std.specs.Prelude.{IfOk};
ghost use Rattle.fare_law.specs.FilingLimits.{IsFiling};
ghost use Rattle.whole_case.specs.Filings as Filings;
ghost use Rattle.whole_case.specs.Stages.{Reads};

use crate::reasons::{of_filing, refused_at};
use crate::{LoadFault, Reason};
use case_text::CaseLine;
use fare_book::{Book, BookFault, OpenBook};
use fare_filing::read_filing;
use fare_law::Filing;
use std::alloc::Global;
use std::sync::Arc;

/// The filing of a line, within its limits.
pub fn filing_in(alloc: Global, line: &CaseLine<'_>) -> Result<Filing, LoadFault>
    ensures filing { Reads result (Filings.filing_in line.now) }
    ensures limits { IfOk result IsFiling }
{
    match read_filing(alloc, line.bytes()) {
        Ok(filing) => Ok(filing),
        Err(fault) => Err(of_filing(line.line(), fault)),
    }
}

/// The book that takes the filing of a line.
fn taken(alloc: Global, book: OpenBook, line: u32, filing: Filing) -> Result<OpenBook, LoadFault>
    requires { IsFiling filing }
    ensures { Reads result (Filings.taken book line filing) }
{
    let filing = Arc::new(alloc, filing)?;
    match book.take(alloc, filing) {
        Ok(next) => Ok(next),
        Err(BookFault::Refused(refused)) => Err(refused_at(
            line,
            Reason::ActionRefused {
                action: refused.action,
                why: refused.why,
            },
        )),
        Err(BookFault::Mem) => Err(LoadFault::Mem),
    }
}

/// The book that the filing of one line leaves.
fn next(alloc: Global, book: OpenBook, line: &CaseLine<'_>) -> Result<OpenBook, LoadFault>
    ensures { Reads result (Filings.next book line.now) }
{
    let filing = filing_in(alloc, line)?;
    taken(alloc, book, line.line(), filing)
}

/// The open book that the filings of these lines leave.
fn all_taken(alloc: Global, book: OpenBook, lines: &[CaseLine<'_>]) -> Result<OpenBook, LoadFault>
    ensures { Reads result (Filings.filed book lines.now) }
{
    let mut book = book;
    for line in lines {
        book = next(alloc, book, line)?;
    }
    Ok(book)
}

/// The book that the filings of these lines leave.
pub fn filed(alloc: Global, book: Book, lines: &[CaseLine<'_>]) -> Result<Book, LoadFault>
    ensures { Reads result (Filings.filed book lines.now) }
{
    let book = all_taken(alloc, OpenBook::of(alloc, book), lines)?;
    Ok(book.close(alloc)?)
}

/// Whether a book takes the filings of these lines one after another.
pub fn judged(alloc: Global, book: &Book, lines: &[CaseLine<'_>]) -> Result<(), LoadFault>
    ensures { Reads result (Filings.are_taken book.now lines.now) }
{
    if lines.is_empty() {
        return Ok(());
    }
    let _last = all_taken(alloc, OpenBook::copy_of(alloc, book)?, lines)?;
    Ok(())
}
