//! Texts that are cut at a separator.
ghost use Rattle.std.specs.Prelude.{◌≡◌, ◌++◌, ◌∷◌, MatchOption, None, Some};
ghost use Rattle.word_text.specs.Words.{IsFreeOf, cut_at, cut_last_at};

/// What stands before the first separator, and what stands after it.
#[tactic(auto, using(crate::proofs::CutLemmas::cut_rules))]
pub fn cut(text: &[u8], separator: u8) -> Option<(&[u8], &[u8])>
    ensures { MatchOption result (cut_at separator text.now ≡ None)
        (λ x. cut_at separator text.now ≡ Some (x.0.now, x.1.now)) }
{
    parts(text, separator)
}

// The two parts, of which the first has no separator.
#[tactic(auto, using(crate::proofs::CutLemmas::part_rules))]
fn parts(text: &[u8], separator: u8) -> Option<(&[u8], &[u8])>
    ensures { MatchOption result (IsFreeOf separator text.now)
        (λ x. (text.now ≡ x.0.now ++ separator ∷ x.1.now) × IsFreeOf separator x.0.now) }
{
    for (at, byte) in text.iter().enumerate() {
        if *byte == separator {
            return Some((&text[..at], &text[at + 1..]));
        }
    }
    None
}

/// What stands before the last separator, and what stands after it.
#[tactic(auto, using(crate::proofs::CutLemmas::cut_rules))]
pub fn cut_last(text: &[u8], separator: u8) -> Option<(&[u8], &[u8])>
    ensures { MatchOption result (cut_last_at separator text.now ≡ None)
        (λ x. cut_last_at separator text.now ≡ Some (x.0.now, x.1.now)) }
{
    last_parts(text, separator)
}

// The two parts, of which the last has no separator.
#[tactic(auto, using(crate::proofs::CutLemmas::part_rules))]
fn last_parts(text: &[u8], separator: u8) -> Option<(&[u8], &[u8])>
    ensures { MatchOption result (IsFreeOf separator text.now)
        (λ x. (text.now ≡ x.0.now ++ separator ∷ x.1.now) × IsFreeOf separator x.1.now) }
{
    for at in (0..text.len()).rev() {
        if text[at] == separator {
            return Some((&text[..at], &text[at + 1..]));
        }
    }
    None
}
