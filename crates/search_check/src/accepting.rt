//! The law of a case that was read.
ghost use Rattle.fare_law.specs.Limits.{IsRequest};
ghost use Rattle.search_check.specs.Accepted.{AddsLines, AddsText, IsAccepted};
ghost use Rattle.search_check.specs.Texts.{IsKept};

use crate::laws::searches_are_accepted;
use fare_book::Book;
use residual_keys::book_limits;
use whole_case::SearchCase;

/// What a search of this case gives is accepted. Nothing is asked of its book, since each that was made is
/// within its limits.
pub fn search_is_accepted(found: &SearchCase)
    requires { IsRequest found.now.request }
    ensures lines { IsAccepted AddsLines found.now }
    ensures text { IsAccepted AddsText found.now }
{
    tell_kept(&found.book);
    searches_are_accepted();
}

/// Tells what each book meets.
fn tell_kept(book: &Book)
    ensures { IsKept book.now }
{
    book_limits(book);
    book.number();
    book.timetable().schedule().flights();
}
