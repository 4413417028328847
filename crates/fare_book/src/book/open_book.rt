//! A book that filings go into.
ghost use Rattle.std.specs.Prelude.{◌≡◌, ◌++◌, ◌∷◌, [], ℕ, IfErr, IfOk, OnOk};
ghost use Rattle.std.specs.Arc.{arc_value};
ghost use Rattle.fare_law.specs.Faults.{Fault};
ghost use Rattle.fare_law.specs.FilingLimits.{IsFiling};
ghost use Rattle.fare_law.specs.declared.filings.BookWhy.{BookWhy as Reason};
ghost use Rattle.fare_book.specs.Taking.{HasCause};

use super::Book;
use super::next::shared;
use crate::draft::Draft;
use crate::sheets::{place_tables, touch_stale};
use crate::taking::take_actions;
use crate::{BookFault, Timetable};
use fare_law::{BookWhy, Filing, List, MOST_ENTRIES, Mem, Refused};
use std::alloc::Global;
use std::collections::{HashMap, HashSet};
use std::marker::Model;
use std::sync::Arc;

/// A book while it takes filings one after another, in place. Contracts see the version that it would
/// be closed at.
#[derive(Drop)]
pub struct OpenBook {
    timetable: Arc<Timetable>,
    entries: List<Arc<Filing>>,
    /// What the entries leave: the sheets of the markets that were touched since it was opened are
    /// made when it is closed.
    draft: Draft,
}

impl Model for OpenBook {
    ghost use Rattle.std.specs.Prelude.{map};
    ghost use Rattle.std.specs.Arc.{arc_value};
    ghost use Rattle.fare_law.specs.Book.{Book as Version};
    ghost use Rattle.fare_book.specs.Opened.{KeepsDraft};

    ghost Value = { Version };

    ghost view = { λ b. record { timetable = arc_value b.timetable; entries = map arc_value b.entries } };

    ghost invariant = { λ b. KeepsDraft (record { timetable = arc_value b.timetable; entries = map arc_value b.entries }) b.draft };
}

impl OpenBook {
    /// The book, open for filings. Nothing of it is copied.
    pub fn of(alloc: Global, book: Book) -> OpenBook
        ensures { result ≡ book }
    {
        let Book {
            timetable,
            entries,
            sheets,
            rules,
            uses,
            seats,
            fare_count,
            rule_count,
        } = book;
        let draft = Draft {
            sheets,
            tables: HashMap::new(alloc),
            rules,
            changed: HashSet::new(alloc),
            uses,
            seats,
            fare_count,
            rule_count,
        };
        OpenBook {
            timetable,
            entries,
            draft,
        }
    }

    /// A copy of the book, open for filings.
    pub fn copy_of(alloc: Global, book: &Book) -> Result<OpenBook, Mem>
        ensures { IfOk result (λ b. b ≡ book.now) }
    {
        let draft = book.draft(alloc)?;
        let entries = shared(alloc, book.entries.as_slice())?;
        let timetable = Arc::try_clone(&book.timetable)?;
        Ok(OpenBook {
            timetable,
            entries,
            draft,
        })
    }

    /// Takes one filing more, or refuses it with its first fault, as `Book::with` does. A refused filing
    /// leaves no book, since the actions before the fault are taken by then.
    pub fn take(self, alloc: Global, filing: Arc<Filing>) -> Result<OpenBook, BookFault>
        requires { IsFiling (arc_value filing) }
        ensures value { IfOk result (λ b. b ≡ record { timetable = self.timetable; entries = self.entries ++ arc_value filing ∷ [] }) }
        ensures right { OnOk result ((at : ℕ) (why : Reason) → Fault self (arc_value filing) at why → ⊥) }
        ensures refused { IfErr result (HasCause self (arc_value filing)) }
    {
        let OpenBook {
            timetable,
            mut entries,
            mut draft,
        } = self;
        if entries.len() >= MOST_ENTRIES {
            return Err(BookFault::Refused(Refused {
                action: 0,
                why: BookWhy::Limit,
            }));
        }
        take_actions(&mut draft, alloc, filing.actions.as_slice())?;
        entries.push(filing)?;
        Ok(OpenBook {
            timetable,
            entries,
            draft,
        })
    }

    /// The book that the filings leave.
    pub fn close(self, alloc: Global) -> Result<Book, Mem>
        ensures { IfOk result (λ b. b ≡ self) }
    {
        let OpenBook {
            timetable,
            entries,
            draft,
        } = self;
        let Draft {
            mut sheets,
            mut tables,
            rules,
            changed,
            uses,
            seats,
            fare_count,
            rule_count,
        } = draft;
        touch_stale(alloc, &mut tables, &sheets, &changed)?;
        place_tables(alloc, &mut sheets, &tables, &rules)?;
        Ok(Book {
            timetable,
            entries,
            sheets,
            rules,
            uses,
            seats,
            fare_count,
            rule_count,
        })
    }
}
