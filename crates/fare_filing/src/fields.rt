//! Fields of compact text: each after the piece that comes before it, and with what follows.
ghost use Rattle.std.specs.Prelude.{◌≡◌, ◌+◌, ◌++◌, ◌∷◌, ◌≤◌, IfSome, IsTrue, decimal};
ghost use Rattle.fare_law.specs.Limits.{IsCapital, IsClass, IsPlace};
ghost use Rattle.fare_law.specs.Names.{IsBasis, IsCarrier, IsCharacter};
ghost use Rattle.fare_filing.specs.Compact.{Cuts, Follows};
ghost use Rattle.fare_filing.specs.Text.{kind_text};

use crate::pieces::{after, number, until_quote};
use fare_law::{Basis, Carrier, Class, FareKind, Place};
use name_text::basis_of;

/// A number of at most so much.
#[inline(always)]
pub fn number_after<'a>(text: &'a [u8], piece: &[u8], most: u64) -> Option<(u64, &'a [u8])>
    ensures text { IfSome result (λ p. text.now ≡ piece.now ++ (decimal p.0 ++ p.1.now)) }
    ensures few { IfSome result (λ p. p.0 ≤ most) }
{
    let (number, rest) = number(after(text, piece)?)?;
    if number <= most {
        Some((number, rest))
    } else {
        None
    }
}

/// A text up to its quote.
#[inline(always)]
pub fn text_after<'a>(text: &'a [u8], piece: &[u8]) -> Option<(&'a [u8], &'a [u8])>
    ensures { IfSome result (λ p. Follows text.now piece.now p.0.now p.1.now) }
{
    until_quote(after(text, piece)?)
}

/// A place.
#[inline(always)]
pub fn place_after<'a>(text: &'a [u8], piece: &[u8]) -> Option<(Place, &'a [u8])>
    ensures text { IfSome result (λ p. text.now ≡ piece.now ++ (p.0.0 ++ p.1.now)) }
    ensures form { IfSome result (λ p. IsPlace p.0) }
{
    match after(text, piece)? {
        [first, second, third, rest @ ..] if are_capitals(*first, *second, *third) => {
            Some((Place([*first, *second, *third]), rest))
        }
        _ => None,
    }
}

/// A carrier.
#[inline(always)]
pub fn carrier_after<'a>(text: &'a [u8], piece: &[u8]) -> Option<(Carrier, &'a [u8])>
    ensures text { IfSome result (λ p. text.now ≡ piece.now ++ (p.0.0 ++ p.1.now)) }
    ensures form { IfSome result (λ p. IsCarrier p.0) }
{
    match after(text, piece)? {
        [first, second, rest @ ..] if is_character(*first) && is_character(*second) => {
            Some((Carrier([*first, *second]), rest))
        }
        _ => None,
    }
}

/// A fare basis.
#[inline(always)]
pub fn basis_after<'a>(text: &'a [u8], piece: &[u8]) -> Option<(Basis, &'a [u8])>
    ensures text { IfSome result (λ p. text.now ≡ piece.now ++ (p.0.0 ++ p.1.now)) }
    ensures form { IfSome result (λ p. IsBasis p.0) }
{
    let (name, rest) = text_after(text, piece)?;
    Some((basis_of(name)?, rest))
}

/// A booking class.
#[inline(always)]
pub fn class_after<'a>(text: &'a [u8], piece: &[u8]) -> Option<(Class, &'a [u8])>
    ensures text { IfSome result (λ p. text.now ≡ piece.now ++ ((65 + p.0) ∷ p.1.now)) }
    ensures form { IfSome result (λ p. IsClass p.0) }
{
    match after(text, piece)? {
        [letter, rest @ ..] if letter.is_ascii_uppercase() => Some((*letter - b'A', rest)),
        _ => None,
    }
}

/// The kind of a fare.
#[inline(always)]
pub fn kind_after<'a>(text: &'a [u8], piece: &[u8]) -> Option<(FareKind, &'a [u8])>
    ensures { IfSome result (λ p. text.now ≡ piece.now ++ (kind_text p.0 ++ p.1.now)) }
{
    match after(text, piece)? {
        [b'O', rest @ ..] => Some((FareKind::O, rest)),
        [b'R', rest @ ..] => Some((FareKind::R, rest)),
        [b'S', rest @ ..] => Some((FareKind::S, rest)),
        _ => None,
    }
}

// Whether three bytes are capital letters.
fn are_capitals(first: u8, second: u8, third: u8) -> bool
    ensures { IsTrue result → IsCapital first × IsCapital second × IsCapital third }
{
    first.is_ascii_uppercase() && second.is_ascii_uppercase() && third.is_ascii_uppercase()
}

// Whether a byte is a capital letter or a digit.
fn is_character(byte: u8) -> bool
    ensures { IsTrue result → IsCharacter byte }
{
    byte.is_ascii_uppercase() || byte.is_ascii_digit()
}
