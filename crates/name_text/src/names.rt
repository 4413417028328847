//! Names of the trade as text.
ghost use Rattle.std.specs.Prelude.{◌≡◌, ◌≤◌, length, IfSome, IsTrue};
ghost use Rattle.std.specs.Char.{is_ascii_uppercase};
ghost use Rattle.std.specs.List.{list_all};
ghost use Rattle.fare_law.specs.Lists.{Each};
ghost use Rattle.fare_law.specs.Names.{IsBasis, IsCarrier, IsCharacter};
ghost use Rattle.name_text.specs.Names as Names;
ghost use Rattle.fare_law.specs.Limits.{IsCapital, IsClass, IsPlace};

use fare_law::{ArrayVec, Basis, Carrier, Class, Place};

/// The place that a text spells: three capital letters.
#[tactic(auto, unfolding(crate::specs::Names::place_of))]
pub fn place_of(text: &[u8]) -> Option<Place>
    ensures name { result ≡ Names.place_of text.now }
    ensures form { IfSome result IsPlace }
{
    if !are_capitals(text) {
        return None;
    }
    let letters: [u8; 3] = text.try_into().ok()?;
    Some(Place(letters))
}

/// The carrier that a text spells: two capital letters or digits.
#[tactic(auto, unfolding(crate::specs::Names::carrier_of))]
pub fn carrier_of(text: &[u8]) -> Option<Carrier>
    ensures name { result ≡ Names.carrier_of text.now }
    ensures form { IfSome result IsCarrier }
{
    if !are_characters(text) {
        return None;
    }
    let characters: [u8; 2] = text.try_into().ok()?;
    Some(Carrier(characters))
}

/// The fare basis that a text spells: one to eight capital letters or digits.
#[tactic(auto, unfolding(crate::specs::Names::basis_of))]
pub fn basis_of(text: &[u8]) -> Option<Basis>
    ensures name { result ≡ Names.basis_of text.now }
    ensures form { IfSome result IsBasis }
{
    if text.is_empty() || text.len() > 8 || !are_characters(text) {
        return None;
    }
    Some(Basis(at_most_eight(text)))
}

/// The booking class that a text spells: one capital letter, 0 for A to 25 for Z.
#[tactic(auto, unfolding(crate::specs::Names::class_of))]
pub fn class_of(text: &[u8]) -> Option<Class>
    ensures name { result ≡ Names.class_of text.now }
    ensures form { IfSome result IsClass }
{
    if text.len() == 1 && text[0].is_ascii_uppercase() {
        Some(text[0] - b'A')
    } else {
        None
    }
}

// Whether each byte is a capital letter.
#[tactic(auto, using(crate::proofs::NameLemmas::capitals))]
fn are_capitals(text: &[u8]) -> bool
    ensures test { result ≡ list_all is_ascii_uppercase text.now }
    ensures each { IsTrue result → Each IsCapital text.now }
{
    text.iter().all(|byte| byte.is_ascii_uppercase())
}

// Whether each byte is a capital letter or a digit.
#[tactic(auto, using(crate::proofs::NameLemmas::characters))]
fn are_characters(text: &[u8]) -> bool
    ensures test { result ≡ list_all Names.is_character text.now }
    ensures each { IsTrue result → Each IsCharacter text.now }
{
    text.iter()
        .all(|byte| byte.is_ascii_uppercase() || byte.is_ascii_digit())
}

// The bytes of a short text.
fn at_most_eight(text: &[u8]) -> ArrayVec<u8, 8>
    requires { length text.now ≤ 8 }
    ensures { result ≡ text.now }
{
    let mut bytes = ArrayVec::new();
    for byte in text {
        bytes.push(*byte);
    }
    bytes
}
