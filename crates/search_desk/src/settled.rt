//! What a desk searched last.
ghost use Rattle.std.specs.Prelude.{◌≡◌, ◌↔◌, IfSome, IsOk, IsSome, IsTrue};

use fare_law::{Request, Slice};
use search_core::{Answer, SearchFault};

/// A version, by its number, and a request: each key of their search is settled with the desk's pass.
#[derive(Drop)]
pub struct Settled {
    pub number: u32,
    pub request: Request,
}

/// Whether this version and this request are what was searched last.
pub fn is_settled(settled: &Option<Settled>, number: u32, request: &Request) -> bool
    ensures some { IsTrue result → IsSome settled.now }
    ensures same { IsTrue result → IfSome settled.now (λ s. (s.number ≡ number) × (s.request ≡ request.now)) }
{
    match settled {
        Some(settled) => settled.number == number && is_same(&settled.request, request),
        None => false,
    }
}

/// What is settled once a search of this version for this request has an answer.
pub fn settled_by(
    answer: &Result<Answer, SearchFault>,
    number: u32,
    request: &Request,
) -> Option<Settled>
    ensures same { IfSome result (λ s. (s.number ≡ number) × (s.request ≡ request.now)) }
    ensures answered { IsSome result → IsOk answer.now }
{
    match answer {
        Ok(_) => Some(Settled {
            number,
            request: request.copied(),
        }),
        Err(_) => None,
    }
}

/// Whether two requests are one.
fn is_same(one: &Request, other: &Request) -> bool
    ensures { IsTrue result ↔ (one.now ≡ other.now) }
{
    one.sale == other.sale
        && one.party == other.party
        && one.best == other.best
        && are_same(one.slices.as_slice(), other.slices.as_slice())
}

/// Whether lists of slices are one.
fn are_same(one: &[Slice], other: &[Slice]) -> bool
    ensures { IsTrue result ↔ (one.now ≡ other.now) }
{
    *one == *other
}
