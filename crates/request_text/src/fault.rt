//! Why a request isn't read.
ghost use Rattle.std.specs.Prelude.{◌≡◌};
ghost use Rattle.request_text.specs.declared.fault.RequestFault.TheVariants.{Mem as OutOfMemory};

use fare_law::{Mem, Why};

/// Why a request isn't read, in the order of judgement.
#[derive(Clone, Copy, PartialEq, Eq, Debug)]
pub enum RequestFault {
    /// The bytes are no JSON text.
    Syntax,
    /// The JSON value isn't of the form of a request.
    Shape,
    /// A number or a list of the request is outside its limits, or a slice ends where it begins.
    BadRequest(Why),
    /// Memory ran out.
    Mem,
}

impl From<Mem> for RequestFault {
    ghost from_gives = { λ _ fault. fault ≡ OutOfMemory };

    fn from(_mem: Mem) -> RequestFault {
        RequestFault::Mem
    }
}
