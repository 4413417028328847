//! The requests of a case.
ghost use Rattle.std.specs.Prelude.{◌≡◌, length, IfOk};
ghost use Rattle.std.specs.List.{list_all};
ghost use Rattle.fare_law.specs.Limits.{IsRequest};
ghost use Rattle.fare_law.specs.Requests.{are_known, is_known, known_places};
ghost use Rattle.whole_case.specs.Requests as Requests;
ghost use Rattle.whole_case.specs.Stages.{Reads};

use crate::reasons::{of_request, refused_at};
use crate::{LoadFault, Reason};
use case_text::CaseLine;
use fare_book::Book;
use fare_law::{List, Place, Request, Why};
use request_text::read_request;
use std::alloc::Global;

/// The request of a line, within its limits.
fn spelled_in(alloc: Global, line: &CaseLine<'_>) -> Result<Request, LoadFault>
    ensures request { Reads result (Requests.spelled_in line.now) }
    ensures limits { IfOk result IsRequest }
{
    match read_request(alloc, line.bytes()) {
        Ok(request) => Ok(request),
        Err(fault) => Err(of_request(line.line(), fault)),
    }
}

/// That the request of a line breaks no limit in the book.
fn allowed_in(book: &Book, line: u32, request: &Request) -> Result<(), LoadFault>
    requires { IsRequest request.now }
    ensures { Reads result (Requests.allowed_in book.now line request.now) }
{
    if knows_all(book, request) {
        Ok(())
    } else {
        Err(refused_at(line, Reason::BadRequest(Why::UnknownPlace)))
    }
}

/// Whether the book knows all places of the request.
fn knows_all(book: &Book, request: &Request) -> bool
    ensures { result ≡ list_all (are_known (known_places book.now)) request.now.slices }
{
    let slices = request.slices.as_slice();
    slices
        .iter()
        .all(|slice| knows(book, slice.from) && knows(book, slice.to))
}

#[tactic(auto, using(crate::proofs::Judgements::known_told))]
fn knows(book: &Book, place: Place) -> bool
    ensures { result ≡ is_known (known_places book.now) place }
{
    book.timetable().schedule().connect(place).is_some()
}

/// The request of a line, which breaks no limit in the book.
pub fn request_in(alloc: Global, book: &Book, line: &CaseLine<'_>) -> Result<Request, LoadFault>
    ensures { Reads result (Requests.request_in book.now line.now) }
{
    let request = spelled_in(alloc, line)?;
    allowed_in(book, line.line(), &request)?;
    Ok(request)
}

/// The request of the one line.
pub fn sole_request(
    alloc: Global,
    book: &Book,
    lines: &List<CaseLine<'_>>,
) -> Result<Request, LoadFault>
    requires { length lines.now ≡ 1 }
    ensures { Reads result (Requests.sole_request book.now lines.now) }
{
    match lines.as_slice() {
        [line] => request_in(alloc, book, line),
        _ => unreachable!(),
    }
}

/// The line of the one request.
pub fn sole_line(lines: &List<CaseLine<'_>>) -> u32
    ensures { result ≡ Requests.sole_line lines.now }
{
    match lines.as_slice() {
        [line, ..] => line.line(),
        [] => 0,
    }
}

/// The request with another number of tickets, where one is given.
pub fn with_best(request: Request, best: Option<u16>) -> Request
    ensures { result ≡ Requests.with_best best request }
{
    match best {
        Some(best) => Request {
            sale: request.sale,
            party: request.party,
            best,
            slices: request.slices,
        },
        None => request,
    }
}
