//! Pieces of compact text, each with what follows it. Their calls are inlined, so that a piece's length is
//! known where its bytes are compared.
ghost use Rattle.std.specs.Prelude.{◌≡◌, ◌+◌, ◌++◌, ◌∷◌, ◌≤◌, length, IfSome, IsTrue, decimal};
ghost use Rattle.fare_filing.specs.Compact.{Cuts, IsPlain};

/// What follows a piece that the text begins with.
#[inline(always)]
#[tactic(auto, using(crate::proofs::PieceLemmas::piece_steps))]
pub fn after<'a>(text: &'a [u8], piece: &[u8]) -> Option<&'a [u8]>
    ensures { IfSome result (λ rest. text.now ≡ piece.now ++ rest.now) }
{
    if text.len() < piece.len() {
        return None;
    }
    let (front, rest) = text.split_at(piece.len());
    if is_same(front, piece) {
        Some(rest)
    } else {
        None
    }
}

// Whether two texts of one length are the same. Pieces are short, so their bytes are compared without a
// branch at each, which takes less than the general comparison of slices.
#[inline(always)]
#[tactic(auto, using(crate::proofs::PieceLemmas::same_steps))]
fn is_same(front: &[u8], piece: &[u8]) -> bool
    requires { length front.now ≡ length piece.now }
    ensures { IsTrue result → front.now ≡ piece.now }
{
    let mut same = true;
    for i in 0..piece.len() {
        same = same & (front[i] == piece[i]);
    }
    same
}

/// The text up to the next quote, if JSON writes it as it is, and what follows from the quote on.
#[inline(always)]
#[tactic(auto, using(crate::proofs::PieceLemmas::name_steps))]
pub fn until_quote<'a>(text: &'a [u8]) -> Option<(&'a [u8], &'a [u8])>
    ensures { IfSome result (λ p. Cuts text.now p.0.now p.1.now) }
{
    for i in 0..text.len() {
        let byte = text[i];
        if byte == b'"' {
            return Some(text.split_at(i));
        }
        if !is_plain(byte) {
            return None;
        }
    }
    None
}

/// A number of at most ten digits without needless zeros, and what follows its digits.
#[inline(always)]
#[tactic(auto, using(crate::proofs::PieceLemmas::number_steps))]
pub fn number<'a>(text: &'a [u8]) -> Option<(u64, &'a [u8])>
    ensures text { IfSome result (λ p. text.now ≡ decimal p.0 ++ p.1.now) }
    ensures low { IfSome result (λ p. p.0 ≤ 9999999999) }
{
    let (first, rest) = digit(text)?;
    if first == 0 {
        Some((0, rest))
    } else {
        Some(with_digits(first, rest))
    }
}

// A number that goes on with the digits that follow it.
#[inline(always)]
#[tactic(auto, using(crate::proofs::PieceLemmas::digit_steps))]
fn with_digits<'a>(first: u64, text: &'a [u8]) -> (u64, &'a [u8])
    requires some { 1 ≤ first }
    requires one { first ≤ 9 }
    ensures text { decimal first ++ text.now ≡ decimal result.0 ++ result.1.now }
    ensures low { result.0 ≤ 9999999999 }
{
    let mut number = first;
    let mut rest = text;
    for _ in 0..9 {
        if number > 999_999_999 {
            return (number, rest);
        }
        let Some((last, more)) = digit(rest) else {
            return (number, rest);
        };
        number = 10 * number + last;
        rest = more;
    }
    (number, rest)
}

// The digit that a text begins with, and what follows.
#[inline(always)]
fn digit<'a>(text: &'a [u8]) -> Option<(u64, &'a [u8])>
    ensures text { IfSome result (λ p. text.now ≡ (48 + p.0) ∷ p.1.now) }
    ensures one { IfSome result (λ p. p.0 ≤ 9) }
{
    match text {
        [digit, rest @ ..] if digit.is_ascii_digit() => Some((u64::from(*digit - b'0'), rest)),
        _ => None,
    }
}

// Whether JSON writes a byte of a text as it is.
fn is_plain(byte: u8) -> bool
    ensures { IsTrue result → IsPlain byte }
{
    byte >= 32 && byte != b'"' && byte != b'\\'
}
