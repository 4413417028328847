//! The request of a text.
ghost use Rattle.std.specs.Prelude.{◌≡◌, None, IfOk};
ghost use Rattle.fare_law.specs.Limits.{IsRequest};
ghost use Rattle.fare_law.specs.Requests.{judged, known_places};
ghost use Rattle.shop_book.specs.Asked.{asked, sole};
ghost use Rattle.whole_case.specs.Requests as Requests;
ghost use Rattle.whole_case.specs.Stages.{Reads};

use crate::refusals::{of_request, refused_at};
use fare_book::Book;
use fare_law::Request;
use request_text::read_request;
use search_core::request_ok;
use std::alloc::Global;
use whole_case::{LoadFault, Reason};

/// The request that the bytes spell, with another number of tickets where one is given, or the first fault.
pub(crate) fn request_in(
    alloc: Global,
    book: &Book,
    bytes: &[u8],
    best: Option<u16>,
) -> Result<Request, LoadFault>
    ensures request { Reads result (asked book.now best bytes.now) }
    ensures right { IfOk result (λ q. judged (known_places book.now) q ≡ None) }
    ensures limits { IfOk result IsRequest }
{
    let spelled = spelled_in(alloc, bytes)?;
    let request = with_best(spelled, best);
    allowed_in(book, &request)?;
    Ok(request)
}

/// The request of a text.
fn spelled_in(alloc: Global, bytes: &[u8]) -> Result<Request, LoadFault>
    ensures { Reads result (Requests.spelled_in (sole bytes.now)) }
{
    match read_request(alloc, bytes) {
        Ok(request) => Ok(request),
        Err(fault) => Err(of_request(fault)),
    }
}

/// That the request breaks no limit in the book.
fn allowed_in(book: &Book, request: &Request) -> Result<(), LoadFault>
    ensures allowed { Reads result (Requests.allowed_in book.now 1 request.now) }
    ensures limits { IfOk result (λ _. IsRequest request.now) }
{
    match request_ok(book, request) {
        Ok(()) => Ok(()),
        Err(why) => Err(refused_at(1, Reason::BadRequest(why))),
    }
}

/// The request with another number of tickets, where one is given.
fn with_best(mut request: Request, best: Option<u16>) -> Request
    ensures { result ≡ Requests.with_best best request }
{
    if let Some(best) = best {
        request.best = best;
    }
    request
}
