//! A list that is known in proofs alone: it takes no memory but for its length. What was given, and is told of by
//! contracts and read by no code, is held so.
ghost use Rattle.std.specs.Prelude.{◌≡◌, length};

use logbook::{Opening, Rule, Seen, Start};
use std::marker::Model;

/// A list of which only the length is kept. Contracts see all its items.
#[derive(Drop)]
pub struct KnownList<T> {
    len: usize,
    seen: Seen<T, u64, Unruled>,
}

impl<T> Model for KnownList<T> {
    ghost use Rattle.std.specs.Prelude.{◌≡◌, List, length};

    ghost Value = { List T };

    ghost view = { λ l. l.seen.log };

    ghost invariant = { λ l. l.len ≡ length l.seen.log };
}

impl<T> KnownList<T> {
    /// These items.
    pub fn of(items: &[T]) -> KnownList<T>
        ensures { result ≡ items.now }
    {
        let (seen, _pens) = Seen::open_row::<&[T], Given>(&items, Start::alone(), 0);
        KnownList {
            len: items.len(),
            seen,
        }
    }

    /// How many items it has.
    pub fn len(&self) -> usize
        ensures { result ≡ length self.now }
    {
        self.len
    }
}

/// What a known list is kept by: its items are the log of a book that nothing is ever written into.
struct Unruled;

impl<T> Rule<T, u64> for Unruled {
    ghost use Rattle.std.specs.Prelude.{[]};
    ghost use base.Fml.{ftrue};

    ghost holds = { λ cells log. Unit {0} };

    ghost first = { [] };

    ghost hinted = { λ n log. Unit {0} };

    ghost shows = { λ log. [] };

    ghost keeps = { λ names log. ftrue };

    ghost moves = { λ ask before after answer. Unit {0} };
}

/// The log that has the items of a slice.
struct Given;

impl<'a, T> Opening<&'a [T], T> for Given {
    ghost log = { λ n items. items.now };
}
