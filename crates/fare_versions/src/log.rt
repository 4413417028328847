//! The end of a history, which adds to it.
ghost use Rattle.std.specs.Prelude.{◌≡◌, ◌<◌, ◌^◌, [], ◌∷◌, ◌++◌, length, IsTrue, MatchBool};
ghost use Rattle.fare_versions.specs.Steps.{word_of};

use crate::front::Front;
use crate::rule::{Add, Counting, NoTrade};
use fare_law::Filing;
use logbook::{Offer, Seen, Start, Word};
use std::marker::Model;

/// The end of a history. There is one, so a house has one history.
#[derive(Drop)]
pub struct FilingLog {
    word: Word<Filing, u64, Counting>,
    front: Front,
}

impl Model for FilingLog {
    ghost use Rattle.std.specs.Prelude.{◌≡◌};
    ghost use Rattle.fare_versions.specs.Histories.{HouseHistory};
    ghost use Rattle.fare_versions.specs.Steps.{word_of};

    ghost Value = { HouseHistory };

    ghost view = { λ l. l.front };

    ghost invariant = { λ l. l.word ≡ word_of l.front.house };
}

impl FilingLog {
    /// A new history, with no entry.
    pub fn open() -> FilingLog
        ensures { result.entries ≡ [] }
    {
        let (seen, mut first, _second) = Seen::open(Start::alone(), 0, 0);
        let word = Word::tracked(0, &mut first);
        FilingLog {
            word,
            front: Front { count: 0, seen },
        }
    }

    /// What was added so far.
    pub fn front(&self) -> Front
        ensures { result ≡ self.now }
    {
        self.front.copied()
    }

    /// Adds an entry, and says whether it did. It always does, as a log alone adds to its history; no clause
    /// says so.
    pub fn add(&mut self, filing: &Filing) -> bool
        requires { length self.old.entries < 2 ^ 62 }
        ensures house { self.new.house ≡ self.old.house }
        ensures entries { MatchBool result (self.new.entries ≡ self.old.entries ++ filing.now ∷ []) (self.new.entries ≡ self.old.entries) }
    {
        let (next, is_added) = added(&self.word, &self.front, filing);
        if is_added {
            self.front = next;
        }
        is_added
    }
}

/// What the history is known to be after a try to add an entry to the front, and whether it was added.
fn added(word: &Word<Filing, u64, Counting>, front: &Front, filing: &Filing) -> (Front, bool)
    requires word { word.now ≡ word_of front.now.house }
    requires room { length front.now.entries < 2 ^ 62 }
    ensures house { result.0.house ≡ front.now.house }
    ensures entries { IsTrue result.1 → result.0.entries ≡ front.now.entries ++ filing.now ∷ [] }
{
    let mut seen = front.seen.again();
    let count = front.count;
    let mut offer: Offer<Filing, u64, Counting, NoTrade> = seen.plain::<NoTrade, Filing, Add>(
        filing,
    );
    let mut pen = seen.no_pen();
    let found = word.compare_exchange::<Add, NoTrade>(
        count,
        count + 1,
        &mut seen,
        &mut offer,
        &mut pen,
    );
    let next = if found == count { count + 1 } else { found };
    (Front { count: next, seen }, found == count)
}
