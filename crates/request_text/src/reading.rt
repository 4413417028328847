//! Reading a request.
ghost use Rattle.std.specs.Prelude.{◌≡◌, IfOk};
ghost use Rattle.request_text.specs.Form.{IsAsked};
ghost use Rattle.fare_law.specs.Limits.{IsRequest};
ghost use Rattle.request_text.specs.Reading.{request_of, Tells, judged};

use crate::RequestFault;
use crate::asked::{Asked, read_asked};
use crate::limits::allowed;
use fare_law::Request;
use json_form::read_value;
use std::alloc::Global;

/// The request that the bytes spell as JSON, or the first fault.
///
/// `Syntax` exactly where they are no JSON text. `Shape` exactly where the value is no object of
/// `sale`, `party`, `slices` and perhaps `best`, each of its form. `BadRequest` exactly where there
/// isn't 1 to `MOST_SLICES` slices, the party isn't 1 to `MOST_PASSENGERS`, `best` isn't 1 to
/// `MOST_TICKETS`, a window isn't 1 to `MOST_WINDOW_DAYS` days, or a slice ends where it begins, the
/// first in this order.
pub fn read_request(alloc: Global, bytes: &[u8]) -> Result<Request, RequestFault>
    ensures told { Tells result (request_of bytes.now) }
    ensures limits { IfOk result IsRequest }
{
    let value = read_value(alloc, bytes)?.ok_or(RequestFault::Syntax)?;
    let asked = read_asked(alloc, &value)?.ok_or(RequestFault::Shape)?;
    judge(&asked)
}

// The request, or the reason for which it is refused, as a fault.
fn judge(asked: &Asked) -> Result<Request, RequestFault>
    requires { IsAsked asked.now }
    ensures value { result ≡ judged asked.now }
    ensures limits { IfOk result IsRequest }
{
    allowed(asked).map_err(RequestFault::BadRequest)
}
