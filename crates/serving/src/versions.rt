//! The history once more, version by version: each reply's text is made of the version that it names. A log names
//! versions and keeps no books, and one book at a time is what this holds.
ghost use Rattle.std.specs.Prelude.{◌≡◌, ◌<◌, ◌+◌, [], All, length, map, slice_set, vec_len, IfOk, OnOk};
ghost use Rattle.std.specs.Arc.{arc_value};
ghost use Rattle.fare_law.specs.FilingLimits.{IsFiling};
ghost use Rattle.fare_versions.specs.Filings.{IsFaultless, book_with};
ghost use Rattle.serve_desks.specs.Judging.{Judged};
ghost use Rattle.serving.specs.Replaying.{HasTexts, HasTextsBetween, IsJudged, IsNext, KeepsOthers, history_after};

use crate::bodies::body_text;
use fare_book::{Book, BookFault};
use fare_law::{Filing, List, Mem};
use serve_desks::{Filed, Reply};
use std::alloc::Global;
use std::sync::Arc;

/// The texts of what came of each search, and how many filings there are at the end.
#[derive(Drop)]
pub(crate) struct Replayed {
    pub texts: Vec<List<u8>>,
    pub count: u32,
}

/// Goes through the history, from the opening book on.
pub(crate) fn replay(
    alloc: Global,
    opening: &Arc<Book>,
    later: &[Arc<Filing>],
    filed: &[Filed],
    replies: &[Reply],
) -> Result<Replayed, Mem>
    requires limits { All (λ f. IsFiling (arc_value f)) later.now }
    requires judged { Judged (arc_value opening.now).timetable (arc_value opening.now).entries (map arc_value later.now) filed.now (history_after (arc_value opening.now).entries (map arc_value later.now) filed.now) }
    ensures count { IfOk result (λ r. r.count ≡ length (history_after (arc_value opening.now).entries (map arc_value later.now) filed.now)) }
    ensures lines { IfOk result (λ r. vec_len r.texts ≡ length replies.now) }
    ensures texts { IfOk result (λ r. HasTextsBetween (arc_value opening.now).timetable (history_after (arc_value opening.now).entries (map arc_value later.now) filed.now)
        (length (arc_value opening.now).entries) (r.count + 1) replies.now r.texts.items) }
{
    let mut texts = no_texts(alloc, replies.len())?;
    tell(alloc, opening, replies, &mut texts)?;
    let mut book = Arc::try_clone(opening)?;
    for (at, filing) in later.iter().enumerate() {
        book = next(alloc, book, filing, filed[at], replies, &mut texts)?;
    }
    let count = book.number();
    Ok(Replayed { texts, count })
}

/// So many empty texts.
fn no_texts(alloc: Global, count: usize) -> Result<Vec<List<u8>>, Mem>
    ensures { IfOk result (λ v. vec_len v ≡ count) }
{
    let mut texts = Vec::new(alloc);
    for _ in 0..count {
        texts.push(List::new(alloc))?;
    }
    Ok(texts)
}

/// The book after a later filing that was judged so, with the texts of the replies that name it.
fn next(
    alloc: Global,
    book: Arc<Book>,
    filing: &Arc<Filing>,
    how: Filed,
    replies: &[Reply],
    texts: &mut Vec<List<u8>>,
) -> Result<Arc<Book>, Mem>
    requires limits { IsFiling (arc_value filing.now) }
    requires judged { IsJudged (arc_value book) (arc_value filing.now) how }
    requires lines { vec_len texts.old ≡ length replies.now }
    ensures lines { vec_len texts.new ≡ vec_len texts.old }
    ensures next { IfOk result (λ b. IsNext (arc_value book) (arc_value filing.now) how replies.now texts.old.items texts.new.items (arc_value b)) }
{
    match how {
        Filed::Refused(_) => Ok(book),
        Filed::Accepted { .. } => {
            let next = filed_on(alloc, &book, filing)?;
            tell(alloc, &next, replies, texts)?;
            Ok(Arc::new(alloc, next)?)
        }
    }
}

/// The book with a filing more, which has no fault in it.
fn filed_on(alloc: Global, book: &Book, filing: &Arc<Filing>) -> Result<Book, Mem>
    requires limits { IsFiling (arc_value filing.now) }
    requires faultless { IsFaultless book.now (arc_value filing.now) }
    ensures { IfOk result (λ b. b ≡ book_with book.now (arc_value filing.now)) }
{
    match book.with(alloc, Arc::try_clone(filing)?) {
        Ok(next) => Ok(next),
        Err(BookFault::Refused(_)) => unreachable!(),
        Err(BookFault::Mem) => Err(Mem),
    }
}

/// Makes the texts of the replies that name this version. There are at most a thousand replies.
fn tell(alloc: Global, book: &Book, replies: &[Reply], texts: &mut Vec<List<u8>>) -> Result<(), Mem>
    requires lines { vec_len texts.old ≡ length replies.now }
    ensures lines { vec_len texts.new ≡ vec_len texts.old }
    ensures made { OnOk result (HasTexts book.now replies.now texts.new.items) }
    ensures kept { OnOk result (KeepsOthers (length book.now.entries) replies.now texts.old.items texts.new.items) }
{
    let number = book.number();
    for (at, reply) in replies.iter().enumerate() {
        let named = reply.number;
        if named == number {
            let text = body_text(alloc, book, &reply.body)?;
            put(texts, at, text);
        }
    }
    Ok(())
}

/// Puts a text at its place.
fn put(texts: &mut Vec<List<u8>>, at: usize, text: List<u8>)
    requires { at < vec_len texts.old }
    ensures items { texts.new.items ≡ slice_set texts.old.items at text }
    ensures lines { vec_len texts.new ≡ vec_len texts.old }
{
    texts[at] = text;
}
