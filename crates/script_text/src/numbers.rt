//! Numbers in a text.
ghost use Rattle.std.specs.Prelude.{[], MatchOption};
ghost use Rattle.script_text.specs.Numbers.{IsNumberAfter, IsNoNumberAfter};

use word_text::{number_of, numbers_tell};

/// The number from `low` to `high` that is all that the text has after the label, in decimal
/// digits without sign or leading zero.
pub fn number_after(label: &[u8], text: &[u8], low: u32, high: u32) -> Option<u32>
    ensures { MatchOption result (IsNoNumberAfter label.now low high text.now)
        (IsNumberAfter label.now low high text.now) }
{
    number_within(text.strip_prefix(label)?, low, high)
}

/// The number from `low` to `high` that is all that the text has, in such digits.
#[tactic(auto, using(crate::proofs::NumberLemmas::number_steps))]
pub fn number_within(text: &[u8], low: u32, high: u32) -> Option<u32>
    ensures { MatchOption result (IsNoNumberAfter [] low high text.now)
        (IsNumberAfter [] low high text.now) }
{
    numbers_tell();
    let number = number_of(text, u64::from(high))? as u32;
    if low <= number { Some(number) } else { None }
}
