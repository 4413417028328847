//! The next version of a book.
ghost use Rattle.std.specs.Prelude.{◌≡◌, ◌<◌, ◌++◌, ◌∷◌, [], ℕ, length, map, IfErr, IfOk, OnOk};
ghost use Rattle.std.specs.Arc.{arc_value};
ghost use Rattle.fare_law.specs.Faults.{Fault, filed};
ghost use Rattle.fare_law.specs.FilingLimits.{IsFiling};
ghost use Rattle.fare_law.specs.declared.filings.BookWhy.{BookWhy as Reason};
ghost use Rattle.fare_book.specs.Drafts.{Drafts};
ghost use Rattle.fare_book.specs.Taking.{HasCause, NoneStops};

use super::Book;
use crate::BookFault;
use crate::draft::Draft;
use crate::sheets::{place_tables, touch_stale};
use crate::taking::take_actions;
use fare_law::{BookWhy, Filing, List, MOST_ENTRIES, Mem, Refused};
use std::alloc::Global;
use std::collections::{HashMap, HashSet};
use std::sync::Arc;

impl Book {
    /// The book with one filing more: the fares, rules and seats that all its actions in order leave. A
    /// filing whose action has a fault, where the actions before it are taken, is refused whole, with
    /// the first such action. A fault at action 0 is one entry more than a book may have.
    pub fn with(&self, alloc: Global, filing: Arc<Filing>) -> Result<Book, BookFault>
        requires { IsFiling (arc_value filing) }
        ensures value { IfOk result (λ b. b ≡ record { timetable = self.now.timetable; entries = self.now.entries ++ arc_value filing ∷ [] }) }
        ensures right { OnOk result ((at : ℕ) (why : Reason) → Fault self.now (arc_value filing) at why → ⊥) }
        ensures refused { IfErr result (HasCause self.now (arc_value filing)) }
    {
        if self.entries.len() >= MOST_ENTRIES {
            return Err(BookFault::Refused(Refused {
                action: 0,
                why: BookWhy::Limit,
            }));
        }
        let mut draft = self.draft(alloc)?;
        match take_actions(&mut draft, alloc, filing.actions.as_slice()) {
            Ok(()) => Ok(self.finish(alloc, draft, filing)?),
            Err(fault) => Err(fault),
        }
    }

    /// What the book has, before any action of a filing.
    pub(super) fn draft(&self, alloc: Global) -> Result<Draft, Mem>
        ensures { IfOk result (λ d. Drafts (filed self.now []) d) }
    {
        let sheets = self.sheets.clone()?;
        let rules = self.rules.clone()?;
        let uses = self.uses.clone()?;
        let seats = Arc::try_clone(&self.seats)?;
        Ok(Draft {
            sheets,
            tables: HashMap::new(alloc),
            rules,
            changed: HashSet::new(alloc),
            uses,
            seats,
            fare_count: self.fare_count,
            rule_count: self.rule_count,
        })
    }

    /// The book after a filing whose actions are taken.
    fn finish(&self, alloc: Global, draft: Draft, filing: Arc<Filing>) -> Result<Book, Mem>
        requires limits { IsFiling (arc_value filing) }
        requires few { length self.now.entries < MOST_ENTRIES }
        requires taken { Drafts (filed self.now (arc_value filing).actions) draft }
        requires faultless { NoneStops self.now (arc_value filing).actions }
        ensures { IfOk result (λ b. b ≡ record { timetable = self.now.timetable; entries = self.now.entries ++ arc_value filing ∷ [] }) }
    {
        let Draft {
            mut sheets,
            mut tables,
            rules,
            changed,
            uses,
            seats,
            fare_count,
            rule_count,
        } = draft;
        touch_stale(alloc, &mut tables, &sheets, &changed)?;
        place_tables(alloc, &mut sheets, &tables, &rules)?;
        let entries = with_entry(alloc, self.entries.as_slice(), filing)?;
        let timetable = Arc::try_clone(&self.timetable)?;
        Ok(Book {
            timetable,
            entries,
            sheets,
            rules,
            uses,
            seats,
            fare_count,
            rule_count,
        })
    }
}

/// The entries and one more.
fn with_entry(
    alloc: Global,
    entries: &[Arc<Filing>],
    filing: Arc<Filing>,
) -> Result<List<Arc<Filing>>, Mem>
    ensures { IfOk result (λ l. map arc_value l ≡ map arc_value entries.now ++ arc_value filing ∷ []) }
{
    let mut all = shared(alloc, entries)?;
    all.push(filing)?;
    Ok(all)
}

/// The same entries.
pub fn shared(alloc: Global, entries: &[Arc<Filing>]) -> Result<List<Arc<Filing>>, Mem>
    ensures { IfOk result (λ l. map arc_value l ≡ map arc_value entries.now) }
{
    let mut all = List::new(alloc);
    for entry in entries {
        let entry = Arc::try_clone(entry)?;
        all.push(entry)?;
    }
    Ok(all)
}
