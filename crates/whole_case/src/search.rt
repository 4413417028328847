//! The case of a search.
ghost use Rattle.std.specs.Prelude.{◌<◌, ◌+◌, ◌^◌, length};
ghost use Rattle.whole_case.specs.Cases as Cases;
ghost use Rattle.whole_case.specs.Stages.{Reads};

use crate::LoadFault;
use crate::asked::asked_case;
use crate::histories::check_version;
use crate::requests::with_best;
use case_text::CaseKind;
use fare_book::Book;
use fare_law::Request;
use std::alloc::Global;

/// The version of the book that a search is about, and what is asked.
#[derive(Drop)]
pub struct SearchCase {
    pub book: Book,
    pub request: Request,
}

/// The case of a search that the bytes spell, or its first refusal, by stages. `best` replaces the
/// number of tickets of the request, and `at` names a version, by default the last.
pub fn load_search_case(
    alloc: Global,
    bytes: &[u8],
    best: Option<u16>,
    at: Option<u32>,
) -> Result<SearchCase, LoadFault>
    requires { length bytes.now + 1 < 2 ^ 32 }
    ensures { Reads result (Cases.search_case best at bytes.now) }
{
    let asked = asked_case(alloc, bytes, CaseKind::Search, at)?;
    check_version(at, &asked.filings)?;
    let (book, request) = asked.into_parts();
    Ok(SearchCase {
        book,
        request: with_best(request, best),
    })
}
