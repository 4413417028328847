//! What it says of a text that it is cut, and that it is a number.
ghost use Rattle.word_text.specs.Laws.{CutTells, LastCutTells, NumberTells, DigitsAre};

/// A text is cut at its first separator, or its last one, and there alone; where it has none, it isn't
/// cut.
#[tactic(auto, using(crate::proofs::CutLemmas::cut_laws))]
pub fn cuts_tell()
    ensures first { CutTells }
    ensures last { LastCutTells }
{}

/// A number is read from its own digits and from no other text, and its digits are digits.
#[tactic(auto, using(crate::proofs::NumberLemmas::number_laws))]
pub fn numbers_tell()
    ensures number { NumberTells }
    ensures digits { DigitsAre }
{}
