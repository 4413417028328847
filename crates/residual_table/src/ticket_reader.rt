//! Ticket parts read one after another. One is mostly as the one before, so the last one is kept with its text.
ghost use Rattle.std.specs.Prelude.{◌≡◌, ◌++◌, ◌∷◌, IfSome, MatchOption, None, Some};
ghost use Rattle.residual_keys.specs.Kept.{PartKept};
ghost use Rattle.residual_keys.specs.ResidualReading.{part_in};
ghost use Rattle.residual_table.specs.KeyReading.{HasPart, NoPart};
ghost use Rattle.word_text.specs.Words.{cut_last_at};

use residual_keys::{TicketPart, part_kept, part_of};
use std::alloc::Global;
use word_text::{cut_last, cuts_tell};

/// A ticket part within its ranges, and the text that spells it, in which no space stands.
#[derive(Drop)]
struct KnownPart {
    text: Vec<u8>,
    part: TicketPart,
    ghost whole: { cut_last_at 32 text.items ≡ None },
    ghost spells: { part_in text.items ≡ Some part },
    ghost kept: { PartKept part },
}

/// Reads ticket parts.
#[derive(Drop)]
pub struct TicketReader {
    alloc: Global,
    last: Option<KnownPart>,
}

impl TicketReader {
    /// A reader that knows no part yet.
    pub fn new(alloc: Global) -> TicketReader {
        TicketReader { alloc, last: None }
    }

    /// What stands before the last space of a text, and the ticket part whose text stands after it.
    pub fn read<'a>(&mut self, text: &'a [u8]) -> Option<(&'a [u8], TicketPart)>
        ensures { MatchOption result (NoPart text.now) (λ x. HasPart text.now x.0.now x.1) }
    {
        cuts_tell();
        if let Some(known) = &self.last {
            if let Some(before) = before_space(text, known.text.as_slice()) {
                return Some((before, known.part));
            }
        }
        let (before, text) = cut_last(text, b' ')?;
        let part = part_of(text)?;
        if !part_kept(&part) {
            return None;
        }
        self.keep(text, &part);
        Some((before, part))
    }

    // Keeps a part that was read, where there is memory.
    fn keep(&mut self, text: &[u8], part: &TicketPart)
        requires whole { cut_last_at 32 text.now ≡ None }
        requires spells { part_in text.now ≡ Some part.now }
        requires kept { PartKept part.now }
    {
        if let Ok(text) = Vec::from_slice(self.alloc, text) {
            self.last = Some(KnownPart { text, part: *part });
        }
    }
}

// What stands before a space and a word, where the text ends with them.
fn before_space<'a>(text: &'a [u8], word: &[u8]) -> Option<&'a [u8]>
    ensures { IfSome result (λ before. text.now ≡ before.now ++ 32 ∷ word.now) }
{
    let [before @ .., space] = text.strip_suffix(word)? else {
        return None;
    };
    if *space != b' ' {
        return None;
    }
    Some(before)
}
