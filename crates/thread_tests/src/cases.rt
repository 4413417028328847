//! Cases that are searched: a book, and what is asked of it; and houses of a clerk who has published such a book.
ghost use Rattle.std.specs.Prelude.{All, IfOk, IfSome};
ghost use Rattle.fare_versions.specs.Seen.{HasSeen};

use crate::{books, round_trip, two_carriers};
use fare_book::Book;
use fare_law::{List, Request};
use fare_versions::{Clerk, Watch, begin};
use std::alloc::Global;
use std::sync::Wait;
use std::test::Fail;

/// A case.
pub enum Case {
    /// There by one flight, and no fare.
    NoFare,
    /// There and back by two flights, and three fares.
    RoundTrip,
    /// Six flights of two carriers, of which a party of two has three tickets.
    TwoCarriers,
}

pub fn book_of(alloc: Global, case: &Case) -> Result<Book, Fail> {
    match case {
        Case::NoFare => round_trip::empty(alloc),
        Case::RoundTrip => round_trip::book(alloc),
        Case::TwoCarriers => two_carriers::book(alloc),
    }
}

pub fn request_of(case: &Case) -> Request {
    match case {
        Case::NoFare => books::request(),
        Case::RoundTrip => round_trip::request(1),
        Case::TwoCarriers => two_carriers::request(),
    }
}

/// Two of a clerk's watches.
fn two_of(clerk: &Clerk, watches: List<Watch>) -> Option<(Watch, Watch)>
    requires { All (HasSeen clerk.now) watches }
    ensures { IfSome result (λ w. HasSeen clerk.now w.0 × HasSeen clerk.now w.1) }
{
    let _clerk = clerk;
    let mut watches = watches.into_vec();
    match (watches.pop(), watches.pop()) {
        (Some(one), Some(other)) => Some((one, other)),
        _ => None,
    }
}

/// A clerk who has published the book of a case, and two watches that have seen it.
pub fn house<R: Wait>(rt: &R, alloc: Global, case: &Case) -> Result<(Clerk, Watch, Watch), Fail>
    ensures { IfOk result (λ r. HasSeen r.0 r.1 × HasSeen r.0 r.2) }
{
    let book = book_of(alloc, case)?;
    let (clerk, watches) = begin(rt, alloc, book, 2)?;
    match two_of(&clerk, watches) {
        Some((one, other)) => Ok((clerk, one, other)),
        None => {
            clerk.end(rt);
            Err(Fail::new("not two watches"))
        }
    }
}
