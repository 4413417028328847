//! Watches, which look.
ghost use Rattle.std.specs.Prelude.{◌≡◌, Some, length, max, IfOk};
ghost use Rattle.std.specs.Arc.{arc_value};
ghost use Rattle.left_right.specs.Sides.{view};
ghost use Rattle.fare_law.specs.Lists.{IsPrefix};
ghost use Rattle.fare_versions.specs.Published.{Grows};
ghost use Rattle.fare_versions.specs.Seen.{HasSeen, SeeOneHistory, seen_by};

use crate::Front;
use crate::edition::Edition;
use crate::receipt::Receipt;
use crate::store::{EditionReader, Sees};
use core::mem::replace_with;
use fare_book::Book;
use fare_law::Mem;
use std::marker::Model;
use std::sync::Arc;

/// One who looks at what is published. It may go to another thread, and may be dropped at any time.
#[derive(Drop)]
pub struct Watch {
    reader: EditionReader,
    /// What was filed up to the version that it saw last.
    seen: Front,
    /// The longest history that it was told of.
    told: Front,
}

impl Model for Watch {
    ghost use Rattle.std.specs.Prelude.{◌≡◌, ◌≤◌, length, Some};
    ghost use Rattle.left_right.specs.Sides.{view as known};
    ghost use Rattle.fare_law.specs.declared.limits.TheConstants.{MOST_ENTRIES};
    ghost use Rattle.fare_versions.specs.Published.{history_of};
    ghost use Rattle.fare_versions.specs.Seen.{Sight, seen_of, sight_of};

    ghost Value = { Sight };

    ghost view = { λ w. sight_of (known w.reader.place) w.told };

    ghost invariant = { λ w. (known w.reader.place ≡ Some (seen_of (known w.reader.place))) × (w.told.house ≡ (seen_of (known w.reader.place)).house) × (w.seen ≡ history_of (seen_of (known w.reader.place))) × (length w.seen.entries ≤ MOST_ENTRIES) × (length w.told.entries ≤ MOST_ENTRIES) };
}

impl Watch {
    pub(crate) fn new(reader: EditionReader, edition: &Edition) -> Watch
        requires { view reader.place ≡ Some edition.now }
        ensures { HasSeen edition.now result }
    {
        let _number = edition.number();
        Watch {
            reader,
            seen: edition.front(),
            told: edition.front(),
        }
    }

    /// Looks once. The book is then the one that this watch saw last: a version of its house's history over
    /// the same timetable, with all entries that the watch had seen and all that it was told of. After `Mem`
    /// it may have seen more than before, never less.
    ///
    /// No clause says that the book is the one published last, nor that `Mem` comes once the clerk has ended.
    /// The call takes no `Wait`, and holds up no one while the book is in use.
    pub fn look(&mut self) -> Result<Arc<Book>, Mem>
        ensures seen { Grows (seen_by self.old) (seen_by self.new) }
        ensures told { self.new.told ≡ self.old.told }
        ensures book { IfOk result (λ b. arc_value b ≡ self.new.book) }
        ensures learnt { IfOk result (λ b. IsPrefix self.old.told (arc_value b).entries) }
    {
        replace_with(self, (), |watch: Watch, _: ()| watch.looked())
    }

    /// The watch after it looked, and the answer.
    fn looked(self) -> (Watch, Result<Arc<Book>, Mem>)
        ensures seen { Grows (seen_by self) (seen_by result.0) }
        ensures told { result.0.told ≡ self.told }
        ensures book { IfOk result.1 (λ b. arc_value b ≡ result.0.book) }
        ensures learnt { IfOk result.1 (λ b. IsPrefix self.told (arc_value b).entries) }
    {
        let Watch { reader, seen, told } = self;
        match reader.enter_as::<Sees>() {
            Ok(reading) => {
                let edition = reading.get();
                let _number = edition.number();
                let seen = edition.front();
                let book = edition.book_after(&told);
                let reader = reading.leave();
                (Watch { reader, seen, told }, book)
            }
            Err(reader) => (Watch { reader, seen, told }, Err(Mem)),
        }
    }

    /// From now on it sees no less than was filed up to the receipt.
    pub fn learn(&mut self, receipt: &Receipt)
        requires { receipt.now.house ≡ self.old.house }
        ensures seen { seen_by self.new ≡ seen_by self.old }
        ensures told { IsPrefix self.old.told self.new.told }
        ensures learnt { IsPrefix receipt.now.entries self.new.told }
    {
        self.told = self.told.longer(receipt.front());
    }

    /// The number of the version that it last saw or was told of, whichever is greater.
    pub fn seen(&self) -> u32
        ensures { result ≡ max (length self.now.book.entries) (length self.now.told) }
    {
        self.seen.count().max(self.told.count()) as u32
    }

    /// Tells that two watches of one clerk see one history: of the versions that they saw last the shorter begins the
    /// longer, and two of one number are equal.
    pub fn tell_one_history(&self, other: &Watch)
        requires { self.now.house ≡ other.now.house }
        ensures { SeeOneHistory self.now.book other.now.book }
    {
        self.seen.tell_order(&other.seen);
    }
}
