//! What C gets: a status, with a text in a handle.
ghost use Rattle.std.specs.Prelude.{◌≡◌, ◌++◌, None, Some, take, drop, length, min, IfErr, IfOk, OnErr};
ghost use Rattle.shop_book.specs.Held.{HoldsNothing, kept_book, kept_bytes};
ghost use Rattle.shop_book.specs.Told as Told;
ghost use Rattle.shop_book.specs.declared.handles.lacks.Lack.TheVariants.{NoBook as NoSuchBook};

use crate::handles::Handle;
use crate::handles::kept::Kept;
use crate::handles::lacks::{Lack, status_of};
use fare_book::Book;
use fare_law::{List, Mem};
use lowfare::Outcome;
use std::alloc::Global;

/// Puts the text of a reply into the handle, and gives its status, or that of what is wanting. What the handle held is
/// let go.
pub fn tell(alloc: Global, answer: &mut Handle, reply: Result<Outcome, Lack>) -> u32
    ensures { Told.Tells reply result answer.new }
{
    let _before = answer.take(alloc);
    match reply {
        Ok(reply) => put(
            alloc,
            answer,
            kept_text(alloc, reply.text),
            u32::from(reply.status.number()),
        ),
        Err(lack) => status_of(lack),
    }
}

/// Puts into the handle what is to be kept, and gives the status, or that for want of memory.
pub fn put(alloc: Global, handle: &mut Handle, kept: Result<Box<Kept>, Mem>, status: u32) -> u32
    requires { HoldsNothing handle.old }
    ensures kept { IfOk kept (λ kept. (result ≡ status) × (handle.new.owned.held ≡ Some kept.value)) }
    ensures none { OnErr kept ((result ≡ 5) × HoldsNothing handle.new) }
{
    match kept {
        Ok(kept) => {
            handle.put(alloc, kept);
            status
        }
        Err(Mem) => status_of(Lack::Memory),
    }
}

/// A text, kept.
pub fn kept_text(alloc: Global, text: List<u8>) -> Result<Box<Kept>, Mem>
    ensures { IfOk result (λ kept. kept.value ≡ Kept.Text text) }
{
    Ok(Box::new(alloc, Kept::Text(text))?)
}

/// The book that is kept.
pub fn book_of(kept: &Kept) -> Result<&Book, Lack>
    ensures book { IfOk result (λ book. kept_book kept.now ≡ Some book.now) }
    ensures none { IfErr result (λ lack. (lack ≡ NoSuchBook) × (kept_book kept.now ≡ None)) }
{
    match kept {
        Kept::Book(held) => Ok(held.as_ref()),
        Kept::Text(_) => Err(Lack::NoBook),
    }
}

/// How many bytes the text has that the handle holds; 0 where it holds none.
pub fn lowfare_text_length(alloc: Global, text: &mut Handle) -> usize
    ensures same { text.new.owned.held ≡ text.old.owned.held }
    ensures length { Told.HasLength text.old result }
{
    let Some(kept) = text.take(alloc) else {
        return 0;
    };
    let length = bytes_of(&kept).len();
    text.put(alloc, kept);
    length
}

/// Copies the front of the text that fits into the buffer, and says how many bytes that is.
pub fn lowfare_text_copy(alloc: Global, text: &mut Handle, into: &mut [u8]) -> usize
    ensures same { text.new.owned.held ≡ text.old.owned.held }
    ensures copied { Told.IsCopied text.old into.old into.new result }
{
    let Some(kept) = text.take(alloc) else {
        return 0;
    };
    let copied = copy_front(bytes_of(&kept), into);
    text.put(alloc, kept);
    copied
}

/// Lets go of the text that the handle holds, if it holds one. The handle then holds nothing.
pub fn lowfare_text_free(alloc: Global, text: &mut Handle)
    ensures { HoldsNothing text.new }
{
    let _text = text.take(alloc);
}

/// The bytes of what is kept: none of a book.
fn bytes_of(kept: &Kept) -> &[u8]
    ensures { result.now ≡ kept_bytes kept.now }
{
    match kept {
        Kept::Text(text) => text.as_slice(),
        Kept::Book(_) => &[],
    }
}

/// Copies as many bytes as there are and as the buffer has room for.
fn copy_front(from: &[u8], to: &mut [u8]) -> usize
    ensures count { result ≡ min (length from.now) (length to.old) }
    ensures bytes { to.new ≡ take result from.now ++ drop result to.old }
{
    let count = from.len().min(to.len());
    to[..count].copy_from_slice(&from[..count]);
    count
}
