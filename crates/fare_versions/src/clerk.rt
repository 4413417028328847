//! The clerk, who files.
ghost use Rattle.std.specs.Prelude.{◌≡◌, ◌≤◌, [], length, IfErr, IfOk, OnErr, OnOk};
ghost use Rattle.std.specs.Arc.{arc_value};
ghost use Rattle.fare_law.specs.FilingLimits.{IsFiling};
ghost use Rattle.fare_versions.specs.Filed.{HasCause};
ghost use Rattle.fare_versions.specs.Published.{Grows, history_of};
ghost use Rattle.fare_versions.specs.Writing.{pending, shown};
ghost use Rattle.fare_versions.specs.Filings.{IsFaultless, book_with};

use crate::FilingLog;
use crate::edition::Edition;
use crate::faults::FileFault;
use crate::receipt::Receipt;
use crate::store::{EditionWriter, publish_at_last};
use core::mem::replace_with;
use fare_book::Book;
use fare_law::Filing;
use std::alloc::Global;
use std::marker::Model;
use std::sync::{Arc, Wait};

/// The one who files, and publishes a book after each filing. Contracts see what is published. A clerk can't be
/// dropped: `end` uses it up.
pub struct Clerk {
    writer: EditionWriter,
    log: FilingLog,
}

impl Model for Clerk {
    ghost use Rattle.std.specs.Prelude.{◌≡◌, []};
    ghost use Rattle.fare_versions.specs.Published.{Published, history_of};
    ghost use Rattle.fare_versions.specs.Writing.{pending, shown};

    ghost Value = { Published };

    ghost view = { λ c. shown c.writer };

    ghost invariant = { λ c. (c.log ≡ history_of (shown c.writer)) × (pending c.writer ≡ []) };
}

impl Clerk {
    pub(crate) fn new(writer: EditionWriter, log: FilingLog) -> Clerk
        requires log { log ≡ history_of (shown writer) }
        requires pending { pending writer ≡ [] }
        ensures { result ≡ shown writer }
    {
        Clerk { writer, log }
    }

    /// The last published book.
    pub fn book(&self) -> &Arc<Book>
        ensures { arc_value result.now ≡ self.now.book }
    {
        self.writer.published().book()
    }

    /// A receipt for the last published book.
    pub fn tell(&mut self) -> Receipt
        ensures same { self.new ≡ self.old }
        ensures receipt { result ≡ history_of self.old }
    {
        self.writer.published().receipt()
    }

    /// Files, and publishes the book with this filing more; the receipt is for it. A filing with a fault is
    /// refused whole. After either fault what is published is as it was, and the next filing is taken.
    pub fn file<R: Wait>(
        &mut self,
        rt: &R,
        alloc: Global,
        filing: Arc<Filing>,
    ) -> Result<Receipt, FileFault>
        requires { IsFiling (arc_value filing) }
        ensures house { self.new.house ≡ self.old.house }
        ensures book { OnOk result (self.new.book ≡ book_with self.old.book (arc_value filing)) }
        ensures receipt { IfOk result (λ r. r ≡ history_of self.new) }
        ensures right { OnOk result (IsFaultless self.old.book (arc_value filing)) }
        ensures same { OnErr result (self.new ≡ self.old) }
        ensures refused { IfErr result (HasCause self.old.book (arc_value filing)) }
    {
        let edition = next_edition(alloc, self.writer.published(), &mut self.log, filing)?;
        let receipt = edition.receipt();
        replace_with(
            &mut self.writer,
            edition,
            |writer: EditionWriter, edition: Edition| -> (EditionWriter, ())
                requires empty { pending writer ≡ [] }
                requires later { Grows (shown writer) edition }
            { (publish_at_last(rt, writer, edition), ()) },
        );
        Ok(receipt)
    }

    /// Waits for those who are looking, and uses the clerk up. Watches see nothing any more.
    pub fn end<R: Wait>(self, rt: &R) {
        let Clerk { writer, log: _ } = self;
        drop(writer.take(rt));
    }
}

/// The edition after one filing more, which the log then has too.
fn next_edition(
    alloc: Global,
    now: &Edition,
    log: &mut FilingLog,
    filing: Arc<Filing>,
) -> Result<Edition, FileFault>
    requires limits { IsFiling (arc_value filing) }
    requires log { log.old ≡ history_of now.now }
    ensures house { log.new.house ≡ log.old.house }
    ensures edition { IfOk result (λ e. e ≡ record { house = now.now.house; book = book_with now.now.book (arc_value filing) }) }
    ensures log { IfOk result (λ e. log.new ≡ history_of e) }
    ensures right { OnOk result (IsFaultless now.now.book (arc_value filing)) }
    ensures same { OnErr result (log.new ≡ log.old) }
    ensures refused { IfErr result (HasCause now.now.book (arc_value filing)) }
{
    let _number = now.number();
    let added = Arc::try_clone(&filing)?;
    let next = now.book().with(alloc, filing)?;
    let book = Arc::new(alloc, next)?;
    if !log.add(&added) {
        return Err(FileFault::Mem);
    }
    Ok(Edition::new(book, log.front()))
}
