//! The versions of a book, of which one may be asked for.
ghost use Rattle.std.specs.Prelude.{◌≡◌, ◌≤◌, [], length};
ghost use Rattle.whole_case.specs.Filings as Filings;
ghost use Rattle.whole_case.specs.Stages.{Reads};

use crate::filings::{filed, judged};
use crate::reasons::refused_at;
use crate::{LoadFault, Reason};
use case_text::CaseLine;
use fare_book::Book;
use fare_law::List;
use std::alloc::Global;

/// The version that is asked for, or the last one where there is none so late, of a book that takes
/// the filings of all these lines.
pub fn filed_version(
    alloc: Global,
    opening: Book,
    lines: &List<CaseLine<'_>>,
    at: Option<u32>,
) -> Result<Book, LoadFault>
    requires { opening.entries ≡ [] }
    ensures { Reads result (Filings.filed_version opening lines.now at) }
{
    version_in(alloc, opening, lines.as_slice(), at)
}

fn version_in(
    alloc: Global,
    opening: Book,
    lines: &[CaseLine<'_>],
    at: Option<u32>,
) -> Result<Book, LoadFault>
    requires { opening.entries ≡ [] }
    ensures { Reads result (Filings.filed_version opening lines.now at) }
{
    let (front, rest) = lines.split_at(kept(at, lines.len()));
    let book = filed(alloc, opening, front)?;
    judged(alloc, &book, rest)?;
    Ok(book)
}

/// How many filings that version has.
fn kept(at: Option<u32>, count: usize) -> usize
    ensures value { result ≡ Filings.kept at count }
    ensures few { result ≤ count }
{
    match at {
        Some(number) => count.min(number as usize),
        None => count,
    }
}

/// That there is a version of the number that is asked for, after the filings of these lines.
pub fn check_version(at: Option<u32>, lines: &List<CaseLine<'_>>) -> Result<(), LoadFault>
    ensures { Reads result (Filings.has_version at (length lines.now)) }
{
    match at {
        Some(number) if number as usize > lines.len() => Err(refused_at(0, Reason::NoVersion)),
        _ => Ok(()),
    }
}
