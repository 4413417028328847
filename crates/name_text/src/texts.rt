//! Names as text.
ghost use Rattle.std.specs.Prelude.{◌≡◌, ◌+◌, [], ◌∷◌};
ghost use Rattle.std.specs.Str.{IsAscii};
ghost use Rattle.fare_law.specs.Limits.{IsClass, IsPlace};
ghost use Rattle.fare_law.specs.Names.{IsBasis, IsCarrier};
ghost use Rattle.name_text.specs.Again.{NamesReadAgain};

use fare_law::{Basis, Carrier, Class, Place};

/// A place as text.
#[tactic(auto, using(crate::proofs::TextLemmas::text_rules))]
pub fn place_text(place: &Place) -> &str
    requires { IsPlace place.now }
    ensures { result.now ≡ place.now.0 }
{
    ascii_text(&place.0)
}

/// A carrier as text.
#[tactic(auto, using(crate::proofs::TextLemmas::text_rules))]
pub fn carrier_text(carrier: &Carrier) -> &str
    requires { IsCarrier carrier.now }
    ensures { result.now ≡ carrier.now.0 }
{
    ascii_text(&carrier.0)
}

/// A fare basis as text.
#[tactic(auto, using(crate::proofs::TextLemmas::text_rules))]
pub fn basis_text(basis: &Basis) -> &str
    requires { IsBasis basis.now }
    ensures { result.now ≡ basis.now.0 }
{
    ascii_text(basis.0.as_slice())
}

/// The letter of a booking class.
#[tactic(auto, using(crate::proofs::TextLemmas::text_rules))]
pub fn class_text(class: Class) -> [u8; 1]
    requires { IsClass class }
    ensures text { result ≡ (65 + class) ∷ [] }
    ensures ascii { IsAscii result }
{
    [b'A' + class]
}

/// ASCII bytes as text.
#[tactic(auto, using(crate::proofs::TextLemmas::ascii_is_utf8))]
pub fn ascii_text(bytes: &[u8]) -> &str
    requires { IsAscii bytes.now }
    ensures { result.now ≡ bytes.now }
{
    std::str::from_utf8(bytes).unwrap()
}

/// Each name that is written so is read again as itself.
pub fn names_read_again()
    ensures { NamesReadAgain }
{}
