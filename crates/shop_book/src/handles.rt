//! The calls of the C interface: each is a call of this crate over handles of C's, with its clauses. `include/lowfare.h` says
//! for C what each takes and gives, and `launch/library.py` makes of each an export that has its clauses and calls it.
//!
//! A handle is a pointer to a box, whose ghost is what the box has, or nothing. It owns what it holds, so that a call which is
//! passed one owes nothing but the type. What the four functions on the pointer own before and after is proved by hand
//! (`proofs/handles/owned`, `proofs/handles/loose`).
ghost use Rattle.std.specs.Prelude.{◌≡◌, None, Some, MatchOption, is_some};

mod books;
mod kept;
mod lacks;
mod loose;
mod owned;
mod questions;
mod runs;
mod searches;
mod texts;

use crate::handles::loose::Loose;
pub use books::{
    lowfare_book_close, lowfare_book_share, lowfare_file, lowfare_open, lowfare_version,
};
pub use kept::Kept;
pub use owned::Owned;
pub use runs::lowfare_run;
pub use searches::{lowfare_calendar, lowfare_check, lowfare_search, lowfare_verdict};
use std::alloc::Global;
use std::mem;
pub use texts::{lowfare_text_copy, lowfare_text_free, lowfare_text_length};

/// A handle of C's. A zeroed one holds nothing. C hands on handles that these calls made, each to one call at a time,
/// and copies none.
#[repr(C)]
#[derive(Drop)]
pub struct Handle {
    pub is_held: bool,
    pub owned: Owned,
    pub ghost agrees: { is_held ≡ is_some owned.held },
}

impl Handle {
    /// The handle of what is kept, or of nothing.
    pub fn holding(kept: Option<Box<Kept>>) -> Handle
        ensures { MatchOption kept (result.owned.held ≡ None) (λ k. result.owned.held ≡ Some k.value) }
    {
        match kept {
            Some(kept) => Handle {
                is_held: true,
                owned: Owned::of(Loose::of(kept)),
            },
            None => Handle {
                is_held: false,
                owned: Owned::none(),
            },
        }
    }

    /// Takes out what is held. The handle then holds nothing.
    pub fn take(&mut self, alloc: Global) -> Option<Box<Kept>>
        ensures taken { MatchOption result (self.old.owned.held ≡ None) (λ kept. self.old.owned.held ≡ Some kept.value) }
        ensures empty { self.new.owned.held ≡ None }
    {
        let Handle { is_held, owned } = mem::replace(self, Handle::holding(None));
        if is_held {
            Some(owned.into_loose(alloc).into_box())
        } else {
            None
        }
    }

    /// Holds this, in place of what is held, which is let go.
    pub fn put(&mut self, alloc: Global, kept: Box<Kept>)
        ensures { self.new.owned.held ≡ Some kept.value }
    {
        let _before = self.take(alloc);
        *self = Handle::holding(Some(kept));
    }
}
