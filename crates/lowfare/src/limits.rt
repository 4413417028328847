//! What is known of a request that is right.
ghost use Rattle.std.specs.Prelude.{◌≡◌, None};
ghost use Rattle.fare_law.specs.Limits.{IsRequest};
ghost use Rattle.fare_law.specs.Requests.{judged, known_places};

use fare_book::Book;
use fare_law::{Request, requests_are_judged};

/// Tells that a request that is refused for no reason is within its limits.
pub(crate) fn tell_limits(book: &Book, request: &Request)
    requires { judged (known_places book.now) request.now ≡ None }
    ensures { IsRequest request.now }
{
    requests_are_judged();
    book.timetable().schedule().limits();
}
