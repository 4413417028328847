//! Texts of positions and open units, with the numbers that these have.
ghost use Rattle.std.specs.Prelude.{◌≡◌, ◌++◌, ◌∷◌, [], IfOk, None};
ghost use Rattle.std.specs.List.{join_with_byte};
ghost use Rattle.residual_keys.specs.ResidualText.{position_words};
ghost use Rattle.word_text.specs.Words.{cut_at};

use fare_law::Mem;
use flight_paths::Position;
use residual_keys::push_position;
use std::alloc::Global;

/// The words of a position with a space after each, and its number.
#[derive(Drop)]
pub struct KnownPosition {
    pub text: Vec<u8>,
    pub number: u32,
}

/// The text of an open unit, in which no slash stands, and its slot.
#[derive(Drop)]
pub struct KnownUnit {
    pub text: Vec<u8>,
    pub slot: u32,
    ghost whole: { cut_at 47 text.items ≡ None },
}

/// The words of a position with a space after each.
pub fn position_text(alloc: Global, at: &Position) -> Result<Vec<u8>, Mem>
    ensures { IfOk result (λ text. text.items ≡ join_with_byte 32 (position_words at.now) ++ 32 ∷ []) }
{
    let mut text = Vec::with_capacity(alloc, 32)?;
    push_position(&mut text, at)?;
    text.push(b' ')?;
    Ok(text)
}
