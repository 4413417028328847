//! Books: opened, shared, filed upon, closed.
ghost use Rattle.std.specs.Prelude.{◌≡◌, None, Some, length, Err, IfErr, IfOk};
ghost use Rattle.std.specs.Arc.{arc_value};
ghost use Rattle.fare_law.specs.Book.{Book as Version};
ghost use Rattle.shop_book.specs.Held.{HoldsBook, HoldsNoBook, HoldsNothing, kept_book};
ghost use Rattle.shop_book.specs.Made.{Gives, Keeps, Makes, Shares};
ghost use Rattle.shop_book.specs.declared.handles.lacks.Lack.TheVariants.{Memory as NoMemory, NoBook as NoSuchBook};
ghost use Rattle.shop_book.specs.declared.handles.lacks.Unmade.TheVariants.{Lacking};
ghost use Rattle.shop_book.specs.Asked.{filed, opened};
ghost use Rattle.whole_case.specs.Texts as Texts;

use crate::filing::file;
use crate::handles::Handle;
use crate::handles::kept::{Kept, is_shared};
use crate::handles::lacks::{Lack, Unmade, fit, status_of};
use crate::handles::texts::{book_of, kept_text, put};
use crate::opening::open_book;
use fare_book::Book;
use fare_law::{List, Mem};
use std::alloc::Global;
use std::sync::Arc;
use whole_case::{Refusal, refusal_text};

/// Opens the book of the case of a search, its last version. At status 0 `book` holds it, and at status 1 `refusal` holds
/// the line of the refusal. What the two held before is let go.
pub fn lowfare_open(alloc: Global, case: &[u8], book: &mut Handle, refusal: &mut Handle) -> u32
    ensures { Gives (opened case.now) case.now result book.new refusal.new }
{
    let made = made_of_case(alloc, case);
    hold(alloc, book, refusal, made)
}

/// Makes a second handle of a book, for another thread. At status 0 `other` holds it; what it held before is let go.
pub fn lowfare_book_share(alloc: Global, book: &mut Handle, other: &mut Handle) -> u32
    ensures same { book.new.owned.held ≡ book.old.owned.held }
    ensures none { HoldsNoBook book.old → (result ≡ 16) × HoldsNothing other.new }
    ensures other { (b : Version) → HoldsBook book.old b → Shares b result other.new }
{
    let _before = other.take(alloc);
    let Some(kept) = book.take(alloc) else {
        return status_of(Lack::NoBook);
    };
    let shared = shared(alloc, &kept);
    book.put(alloc, kept);
    match shared {
        Ok(kept) => {
            other.put(alloc, kept);
            0
        }
        Err(lack) => status_of(lack),
    }
}

/// Lets go of the book that the handle holds, if it holds one. The handle then holds nothing. The book goes with its
/// last handle.
pub fn lowfare_book_close(alloc: Global, book: &mut Handle)
    ensures { HoldsNothing book.new }
{
    let _book = book.take(alloc);
}

/// Files a filing upon a book. At status 0 `next` holds the next version, and at status 1 `refusal` the line of the
/// refusal. What these two held before is let go. `book` holds what it held.
pub fn lowfare_file(
    alloc: Global,
    book: &mut Handle,
    filing: &[u8],
    next: &mut Handle,
    refusal: &mut Handle,
) -> u32
    ensures same { book.new.owned.held ≡ book.old.owned.held }
    ensures none { HoldsNoBook book.old → (result ≡ 16) × HoldsNothing next.new × HoldsNothing refusal.new }
    ensures next { (b : Version) → HoldsBook book.old b → Gives (filed b filing.now) filing.now result next.new refusal.new }
{
    let Some(kept) = book.take(alloc) else {
        return hold(alloc, next, refusal, Err(Unmade::Lacking(Lack::NoBook)));
    };
    let made = made_of_filing(alloc, &kept, filing);
    book.put(alloc, kept);
    hold(alloc, next, refusal, made)
}

/// The number of the version that the handle holds: how many filings it has. 0 where it holds no book.
pub fn lowfare_version(alloc: Global, book: &mut Handle) -> u32
    ensures same { book.new.owned.held ≡ book.old.owned.held }
    ensures none { HoldsNoBook book.old → result ≡ 0 }
    ensures number { (b : Version) → HoldsBook book.old b → result ≡ length b.entries }
{
    let Some(kept) = book.take(alloc) else {
        return 0;
    };
    is_shared(&kept);
    let number = number_of(&kept);
    book.put(alloc, kept);
    number
}

/// The number of the version that is kept; 0 of a text.
fn number_of(kept: &Kept) -> u32
    ensures none { kept_book kept.now ≡ None → result ≡ 0 }
    ensures number { (b : Version) → kept_book kept.now ≡ Some b → result ≡ length b.entries }
{
    match book_of(kept) {
        Ok(book) => book.number(),
        Err(_) => 0,
    }
}

/// One more owner of the book that is kept.
fn shared(alloc: Global, kept: &Kept) -> Result<Box<Kept>, Lack>
    ensures none { kept_book kept.now ≡ None → result ≡ Err NoSuchBook }
    ensures same { (b : Version) → kept_book kept.now ≡ Some b → IfOk result (λ kept. kept_book kept.value ≡ Some b) }
    ensures lack { (b : Version) → kept_book kept.now ≡ Some b → IfErr result (λ lack. lack ≡ NoMemory) }
{
    match kept {
        Kept::Book(held) => Ok(one_more(alloc, held)?),
        Kept::Text(_) => Err(Lack::NoBook),
    }
}

/// One more owner of a book, kept.
fn one_more(alloc: Global, held: &Arc<Book>) -> Result<Box<Kept>, Mem>
    ensures { IfOk result (λ kept. kept_book kept.value ≡ Some (arc_value held.now)) }
{
    let held = Arc::try_clone(held)?;
    Ok(Box::new(alloc, Kept::Book(held))?)
}

/// The book of a case.
fn made_of_case(alloc: Global, case: &[u8]) -> Result<Book, Unmade>
    ensures { Makes (opened case.now) case.now result }
{
    fit(case)?;
    Ok(open_book(alloc, case)?)
}

/// The next version of the book that is kept.
fn made_of_filing(alloc: Global, kept: &Kept, filing: &[u8]) -> Result<Book, Unmade>
    ensures none { kept_book kept.now ≡ None → result ≡ Err (Lacking NoSuchBook) }
    ensures next { (b : Version) → kept_book kept.now ≡ Some b → Makes (filed b filing.now) filing.now result }
{
    let book = book_of(kept)?;
    next_of(alloc, book, filing)
}

/// The next version of a book.
fn next_of(alloc: Global, book: &Book, filing: &[u8]) -> Result<Book, Unmade>
    ensures { Makes (filed book.now filing.now) filing.now result }
{
    fit(filing)?;
    Ok(file(alloc, book, filing)?)
}

/// Holds a book that was made, or the text of its refusal, or nothing. What the two held is let go.
fn hold(alloc: Global, book: &mut Handle, refusal: &mut Handle, made: Result<Book, Unmade>) -> u32
    ensures { Keeps made result book.new refusal.new }
{
    let _before = (book.take(alloc), refusal.take(alloc));
    match made {
        Ok(made) => put(alloc, book, kept_of(alloc, made), 0),
        Err(Unmade::Refused(why)) => put(alloc, refusal, kept_line(alloc, &why), 1),
        Err(Unmade::Lacking(lack)) => status_of(lack),
    }
}

/// A book, kept.
fn kept_of(alloc: Global, book: Book) -> Result<Box<Kept>, Mem>
    ensures { IfOk result (λ kept. kept_book kept.value ≡ Some book) }
{
    Ok(Box::new(alloc, Kept::Book(Arc::new(alloc, book)?))?)
}

/// The line of a refusal, kept.
fn kept_line(alloc: Global, why: &Refusal) -> Result<Box<Kept>, Mem>
    ensures { IfOk result (λ kept. kept.value ≡ Kept.Text (Texts.refusal_text why.now)) }
{
    let line = refusal_text(alloc, why)?;
    kept_text(alloc, List::from_vec(line.into_bytes()))
}
