//! The limits of books.
ghost use Rattle.residual_keys.specs.Written.{InLimits};

use crate::component::schedule_of;
use fare_book::Book;

/// Tells that a book is within its limits.
pub fn book_limits(book: &Book)
    ensures { InLimits book.now }
{
    book.limits();
    schedule_of(book).flights();
}
