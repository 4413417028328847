//! Fares as JSON.
ghost use Rattle.std.specs.Prelude.{◌≡◌, IfSome, codes};
ghost use Rattle.serde_json.specs.View.{view};
ghost use Rattle.json_form.specs.Fares.{fare_key, fare_spelled, kind_of, kind_at};
ghost use Rattle.fare_law.specs.Limits.{IsFareKey, IsFare};

use crate::members::{basis_at, between_at, carrier_at, class_at, has_members, place_at, text_at};
use fare_law::{Fare, FareKey, FareKind};
use serde_json::Value;

/// The fare that an object spells: the value of the action `put_fare`.
///
/// `None` exactly where the value is no object of `carrier`, `from`, `to`, `basis`, `class`, `kind`,
/// `amount` and `rule`, each of its form and within its limits.
#[tactic(auto, unfolding(crate::specs::Fares::fare_spelled))]
pub fn read_fare(value: &Value) -> Option<Fare>
    ensures fare { result ≡ fare_spelled (view value.now) }
    ensures limits { IfSome result IsFare }
{
    if !has_members(value, 8) {
        return None;
    }
    Some(Fare {
        key: read_fare_key(value)?,
        class: class_at(value, "class")?,
        kind: kind_at(value)?,
        amount: between_at(value, "amount", 0, 1_000_000_000)?,
        rule: between_at(value, "rule", 0, 9999)? as u16,
    })
}

/// What names a fare, by the members `carrier`, `from`, `to` and `basis` of an object.
pub fn read_fare_key(value: &Value) -> Option<FareKey>
    ensures key { result ≡ fare_key (view value.now) }
    ensures limits { IfSome result IsFareKey }
{
    Some(FareKey {
        carrier: carrier_at(value, "carrier")?,
        from: place_at(value, "from")?,
        to: place_at(value, "to")?,
        basis: basis_at(value, "basis")?,
    })
}

// The member `kind`.
fn kind_at(value: &Value) -> Option<FareKind>
    ensures { result ≡ kind_at (view value.now) }
{
    kind_of(text_at(value, "kind")?)
}

// The kind of a fare that a text spells.
fn kind_of(text: &str) -> Option<FareKind>
    ensures { result ≡ kind_of text.now }
{
    match text {
        "O" => Some(FareKind::O),
        "R" => Some(FareKind::R),
        "S" => Some(FareKind::S),
        _ => None,
    }
}
