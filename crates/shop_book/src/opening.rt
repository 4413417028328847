//! Opening a book.
ghost use Rattle.std.specs.Prelude.{◌≡◌, ◌<◌, ◌+◌, ◌^◌, length};
ghost use Rattle.shop_book.specs.Asked.{opened};
ghost use Rattle.whole_case.specs.Stages.{Reads};

use fare_book::Book;
use std::alloc::Global;
use whole_case::{LoadFault, SearchCase, load_search_case};

/// The book of the case of a search, its last version, or the first refusal of the case. The request of the case is
/// judged with it and then let go.
pub fn open_book(alloc: Global, bytes: &[u8]) -> Result<Book, LoadFault>
    requires { length bytes.now + 1 < 2 ^ 32 }
    ensures { Reads result (opened bytes.now) }
{
    match load_search_case(alloc, bytes, None, None) {
        Ok(found) => Ok(book_of(found)),
        Err(fault) => Err(fault),
    }
}

fn book_of(found: SearchCase) -> Book
    ensures { result ≡ found.book }
{
    found.book
}
