//! What is known of each book.
ghost use Rattle.search_check.specs.Texts.{IsKept};

use fare_book::Book;
use residual_keys::book_limits;

/// Tells that a book is within its limits, that its flights stand in the order of their departures, and that it has
/// at most a million filings.
pub(crate) fn tell_kept(book: &Book)
    ensures { IsKept book.now }
{
    book_limits(book);
    book.number();
    book.timetable().schedule().flights();
}
