//! The line of a request.
ghost use Rattle.std.specs.Prelude.{◌≡◌, ◌↔◌, Ok, Some, IfOk, MatchOption};
ghost use Rattle.certificate_text.specs.Faults.{SpellsRequest};
ghost use Rattle.fare_law.specs.Limits.{IsRequest};
ghost use Rattle.fare_law.specs.declared.requests.Request.{Request as RequestData};
ghost use Rattle.request_text.specs.Reading.{request_of};

use crate::words::after;
use fare_law::{Mem, Request};
use market_time::one_date_text;
use request_text::{RequestFault, read_request, request_text};
use std::alloc::Global;

/// The request of a line: its text has to be the one that is written for it.
pub fn request_line(alloc: Global, line: &[u8]) -> Result<Option<Request>, Mem>
    ensures { IfOk result (λ found. (q : RequestData) → (found ≡ Some q) ↔ SpellsRequest line.now q) }
{
    one_date_text();
    let Some(text) = after(b"request ", line) else {
        return Ok(None);
    };
    let Some(request) = spelled(alloc, text)? else {
        return Ok(None);
    };
    let written = request_text(alloc, &request)?;
    if written.as_slice() != text {
        return Ok(None);
    }
    Ok(Some(request))
}

// The request that the text spells, in whatever form.
fn spelled(alloc: Global, text: &[u8]) -> Result<Option<Request>, Mem>
    ensures { IfOk result (λ found. MatchOption found
        ((q : RequestData) → request_of text.now ≡ Ok q → ⊥)
        (λ q. (request_of text.now ≡ Ok q) × IsRequest q)) }
{
    match read_request(alloc, text) {
        Ok(request) => Ok(Some(request)),
        Err(fault) => match fault {
            RequestFault::Mem => Err(Mem),
            RequestFault::Syntax | RequestFault::Shape | RequestFault::BadRequest(_) => Ok(None),
        },
    }
}
