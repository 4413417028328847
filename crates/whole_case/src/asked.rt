//! What each kind of case with one request has.
ghost use Rattle.std.specs.Prelude.{◌≡◌, ◌<◌, ◌+◌, ◌^◌, length, IsTrue};
ghost use Rattle.case_text.specs.Entries.{has_one_request};
ghost use Rattle.whole_case.specs.Cases as Cases;
ghost use Rattle.whole_case.specs.Stages.{Reads};

use crate::LoadFault;
use crate::books::{FiledCase, filed_case};
use crate::requests::{sole_line, sole_request};
use case_text::{CaseKind, CaseLine};
use fare_book::Book;
use fare_law::{List, Request, TextLine};
use std::alloc::Global;

/// The version of the book that a case is about, what is asked and in which line, and the lines of the
/// sections that are read after the request.
#[derive(Drop)]
pub struct AskedCase<'a> {
    pub book: Book,
    pub request: Request,
    /// The line of the request.
    pub line: u32,
    pub filings: List<CaseLine<'a>>,
    pub ticket: List<TextLine>,
    pub certificate: List<CaseLine<'a>>,
    /// The line of `#end`.
    pub end: u32,
}

impl AskedCase<'_> {
    /// The book and the request, without the lines.
    pub fn into_parts(self) -> (Book, Request)
        ensures book { result.0 ≡ self.entry.book }
        ensures request { result.1 ≡ self.entry.request }
    {
        (self.book, self.request)
    }
}

/// What a case of this kind, which has one request, asks.
pub fn asked_case(
    alloc: Global,
    bytes: &[u8],
    kind: CaseKind,
    at: Option<u32>,
) -> Result<AskedCase<'_>, LoadFault>
    requires length { length bytes.now + 1 < 2 ^ 32 }
    requires one { IsTrue (has_one_request kind) }
    ensures { Reads result (Cases.asked_case kind at bytes.now) }
{
    let filed = filed_case(alloc, bytes, kind, at)?;
    let request = sole_request(alloc, &filed.book, &filed.requests)?;
    Ok(asked_of(filed, request))
}

/// What a case with this request asks.
fn asked_of(filed: FiledCase<'_>, request: Request) -> AskedCase<'_>
    ensures { result ≡ Cases.asked_of filed.entry request }
{
    AskedCase {
        book: filed.book,
        request,
        line: sole_line(&filed.requests),
        filings: filed.filings,
        ticket: filed.ticket,
        certificate: filed.certificate,
        end: filed.end,
    }
}
