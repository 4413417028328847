//! The request check.
ghost use Rattle.std.specs.Prelude.{◌≡◌, ◌↔◌, IsTrue, MatchOption};
ghost use Rattle.certificate.specs.RequestCheck.{IsOf, IsOfAnother};

use certificate::Certificate;
use fare_book::Book;
use fare_law::{Request, Slice};

/// The place where the request check fails, if it does.
pub fn request_fails(book: &Book, request: &Request, certificate: &Certificate) -> Option<u32>
    ensures { MatchOption result (IsOf certificate.now book.now request.now) (IsOfAnother certificate.now book.now request.now) }
{
    if certificate.number != book.number() {
        return Some(1);
    }
    if !is_same(&certificate.request, request) {
        return Some(2);
    }
    None
}

/// Whether two requests are one.
fn is_same(one: &Request, other: &Request) -> bool
    ensures { IsTrue result ↔ (one.now ≡ other.now) }
{
    one.sale == other.sale
        && one.party == other.party
        && one.best == other.best
        && one.slices.len() == other.slices.len()
        && are_same(one.slices.as_slice(), other.slices.as_slice())
}

/// Whether lists of slices are one.
fn are_same(one: &[Slice], other: &[Slice]) -> bool
    ensures { IsTrue result ↔ (one.now ≡ other.now) }
{
    *one == *other
}
