//! How a clerk and its watches begin.
ghost use Rattle.std.specs.Prelude.{◌≡◌, ◌<◌, ◌≤◌, [], length, map, All, Some, IfOk, IfSome};
ghost use Rattle.std.specs.Arc.{arc_value};
ghost use Rattle.fare_law.specs.declared.limits.TheConstants.{MOST_ENTRIES};
ghost use Rattle.fare_versions.specs.Seen.{HasSeen};
ghost use Rattle.fare_versions.specs.Writing.{last_seen, pending, shown};

use crate::FilingLog;
use crate::clerk::Clerk;
use crate::edition::Edition;
use crate::store::{EditionWriter, Shares, publish};
use crate::watch::Watch;
use fare_book::Book;
use fare_law::{Filing, List, Mem};
use std::alloc::Global;
use std::sync::{Arc, Wait};

/// How many watches a store has room for.
const MOST_WATCHES: usize = 8;

/// A clerk who has published this book, and watches that have seen it: one at least, and as many as are wanted
/// where all of them find a place.
pub fn begin<R: Wait>(
    rt: &R,
    alloc: Global,
    book: Book,
    wanted: u32,
) -> Result<(Clerk, List<Watch>), Mem>
    requires { (1 ≤ wanted) × (wanted ≤ 8) }
    ensures clerk { IfOk result (λ r. r.0.book ≡ book) }
    ensures watches { IfOk result (λ r. All (HasSeen r.0) r.1) }
    ensures count { IfOk result (λ r. (1 ≤ length r.1) × (length r.1 ≤ wanted)) }
{
    let _number = book.number();
    let Some(log) = logged(book.entries()) else {
        return Err(Mem);
    };
    let edition = Edition::new(Arc::new(alloc, book)?, log.front());
    let mut writer = writer_of(rt, alloc, edition)?;
    match watches(alloc, &mut writer, wanted) {
        Ok(watches) if watches.len() > 0 => Ok((Clerk::new(writer, log), watches)),
        _ => {
            drop(writer.take(rt));
            Err(Mem)
        }
    }
}

/// The writer of a store that shows this edition. It was published twice, so that the store has room for what
/// a clerk publishes, and no filing fails for want of it.
fn writer_of<R: Wait>(rt: &R, alloc: Global, edition: Edition) -> Result<EditionWriter, Mem>
    ensures shown { IfOk result (λ w. shown w ≡ edition) }
    ensures pending { IfOk result (λ w. pending w ≡ []) }
    ensures seen { IfOk result (λ w. last_seen w ≡ Some edition) }
{
    let second = edition.copy()?;
    let third = edition.copy()?;
    let writer = EditionWriter::new(alloc, edition, second, MOST_WATCHES)?;
    let (writer, is_published) = publish(rt, writer, third);
    if !is_published {
        drop(writer.take(rt));
        return Err(Mem);
    }
    Ok(writer)
}

/// A new history of these entries.
fn logged(entries: &[Arc<Filing>]) -> Option<FilingLog>
    requires { length entries.now ≤ MOST_ENTRIES }
    ensures { IfSome result (λ l. l.entries ≡ map arc_value entries.now) }
{
    let mut log = FilingLog::open();
    for entry in entries {
        if !log.add(entry) {
            return None;
        }
    }
    Some(log)
}

/// New watches, up to as many as are wanted.
fn watches(alloc: Global, writer: &mut EditionWriter, wanted: u32) -> Result<List<Watch>, Mem>
    requires { last_seen writer.old ≡ Some (shown writer.old) }
    ensures shown { shown writer.new ≡ shown writer.old }
    ensures pending { pending writer.new ≡ pending writer.old }
    ensures watches { IfOk result (All (HasSeen (shown writer.old))) }
    ensures count { IfOk result (λ l. length l ≤ wanted) }
{
    let mut watches = List::new(alloc);
    for _ in 0..wanted {
        match watch(writer) {
            Ok(watch) => watches.push(watch)?,
            Err(_) => break,
        }
    }
    Ok(watches)
}

/// A watch that has seen what is published.
fn watch(writer: &mut EditionWriter) -> Result<Watch, Mem>
    requires { last_seen writer.old ≡ Some (shown writer.old) }
    ensures shown { shown writer.new ≡ shown writer.old }
    ensures pending { pending writer.new ≡ pending writer.old }
    ensures seen { last_seen writer.new ≡ last_seen writer.old }
    ensures watch { IfOk result (HasSeen (shown writer.old)) }
{
    let mut reader = writer.factory().reader()?;
    reader.learn::<Shares>(writer.tell::<Shares>());
    Ok(Watch::new(reader, writer.published()))
}
