//! Editions: books as they are published.
ghost use Rattle.std.specs.Prelude.{◌≡◌, ◌≤◌, length, IfOk};
ghost use Rattle.std.specs.Arc.{arc_value};
ghost use Rattle.fare_law.specs.declared.limits.TheConstants.{MOST_ENTRIES};
ghost use Rattle.fare_law.specs.Lists.{IsPrefix};
ghost use Rattle.fare_versions.specs.Published.{history_of};

use crate::Front;
use crate::receipt::Receipt;
use fare_book::Book;
use fare_law::Mem;
use left_right::Absorb;
use std::alloc::AllocError;
use std::marker::Model;
use std::sync::Arc;

/// A book with the front of the history that its entries are.
#[derive(Drop)]
pub struct Edition {
    book: Arc<Book>,
    front: Front,
}

impl Model for Edition {
    ghost use Rattle.std.specs.Prelude.{◌≡◌};
    ghost use Rattle.std.specs.Arc.{arc_value};
    ghost use Rattle.fare_versions.specs.Published.{Published};

    ghost Value = { Published };

    ghost view = { λ e. record { house = e.front.house; book = arc_value e.book } };

    ghost invariant = { λ e. e.front.entries ≡ (arc_value e.book).entries };
}

impl Edition {
    pub fn new(book: Arc<Book>, front: Front) -> Edition
        requires { front.entries ≡ (arc_value book).entries }
        ensures { result ≡ record { house = front.house; book = arc_value book } }
    {
        Edition { book, front }
    }

    /// A second edition of the same book.
    pub fn copy(&self) -> Result<Edition, AllocError>
        ensures { IfOk result (λ e. e ≡ self.now) }
    {
        Ok(Edition {
            book: Arc::try_clone(&self.book)?,
            front: self.front.copied(),
        })
    }

    pub fn book(&self) -> &Arc<Book>
        ensures { arc_value result.now ≡ self.now.book }
    {
        &self.book
    }

    /// What was filed up to it.
    pub fn front(&self) -> Front
        ensures { result ≡ history_of self.now }
    {
        self.front.copied()
    }

    /// A receipt for it.
    pub fn receipt(&self) -> Receipt
        ensures { result ≡ history_of self.now }
    {
        let _number = self.number();
        Receipt::of(self.front())
    }

    /// The number of its version.
    pub fn number(&self) -> u32
        ensures value { result ≡ length self.now.book.entries }
        ensures few { result ≤ MOST_ENTRIES }
    {
        self.book.number()
    }

    /// The book, where it has all that the front has. A front of what was published before has no more, so
    /// that the answer for want of memory comes at no look; no clause says so.
    pub fn book_after(&self, told: &Front) -> Result<Arc<Book>, Mem>
        requires { told.now.house ≡ self.now.house }
        ensures book { IfOk result (λ b. arc_value b ≡ self.now.book) }
        ensures told { IfOk result (λ b. IsPrefix told.now.entries (arc_value b).entries) }
    {
        if !told.begins(&self.front) {
            return Err(Mem);
        }
        Ok(Arc::try_clone(&self.book)?)
    }
}

/// An operation puts an edition in the place of the one before.
impl Absorb<Edition> for Edition {
    type State = Edition;

    ghost state = { λ e. e };

    ghost applied = { λ before e. e };

    fn absorb_first(&mut self, operation: &Edition, _other: &Edition) -> Result<(), AllocError> {
        *self = operation.copy()?;
        Ok(())
    }

    fn absorb_second(&mut self, operation: Edition, _other: &Edition) -> Result<(), Edition> {
        *self = operation;
        Ok(())
    }
}
