//! Filing.
ghost use Rattle.std.specs.Prelude.{IfOk};
ghost use Rattle.fare_law.specs.FilingLimits.{IsFiling};
ghost use Rattle.shop_book.specs.Asked.{filed, sole};
ghost use Rattle.whole_case.specs.Filings as Filings;
ghost use Rattle.whole_case.specs.Stages.{Reads};

use crate::refusals::{of_filing, refused_at};
use fare_book::{Book, BookFault};
use fare_filing::read_filing;
use fare_law::Filing;
use std::alloc::Global;
use std::sync::Arc;
use whole_case::{LoadFault, Reason};

/// The book with the filing that the bytes spell, which is the next version, or the filing's first fault. The book
/// that is filed upon stays as it is.
pub fn file(alloc: Global, book: &Book, bytes: &[u8]) -> Result<Book, LoadFault>
    ensures { Reads result (filed book.now bytes.now) }
{
    let filing = filing_in(alloc, bytes)?;
    taken(alloc, book, filing)
}

/// The filing that the bytes spell, within its limits.
fn filing_in(alloc: Global, bytes: &[u8]) -> Result<Filing, LoadFault>
    ensures filing { Reads result (Filings.filing_in (sole bytes.now)) }
    ensures limits { IfOk result IsFiling }
{
    match read_filing(alloc, bytes) {
        Ok(filing) => Ok(filing),
        Err(fault) => Err(of_filing(fault)),
    }
}

/// The book that takes the filing.
fn taken(alloc: Global, book: &Book, filing: Filing) -> Result<Book, LoadFault>
    requires { IsFiling filing }
    ensures { Reads result (Filings.taken book.now 1 filing) }
{
    let filing = Arc::new(alloc, filing)?;
    match book.with(alloc, filing) {
        Err(BookFault::Mem) => Err(LoadFault::Mem),
        Err(BookFault::Refused(refused)) => Err(refused_at(
            1,
            Reason::ActionRefused {
                action: refused.action,
                why: refused.why,
            },
        )),
        Ok(next) => Ok(next),
    }
}
