//! Fares as JSON values.
ghost use Rattle.std.specs.Prelude.{◌≡◌, IfOk};
ghost use Rattle.serde_json.specs.Data.{object};
ghost use Rattle.serde_json.specs.View.{view, members_view};
ghost use Rattle.fare_law.specs.Limits.{IsFare, IsFareKey};
ghost use Rattle.fare_filing.specs.Text as Text;

use crate::members::put_text;
use fare_law::{Fare, FareKey, FareKind, Mem};
use name_text::{ascii_text, basis_text, carrier_text, class_text, place_text};
use serde_json::{Map, Value, put};
use std::alloc::{AllocError, Global};

/// The value of a fare within its limits.
pub fn fare_value(alloc: Global, fare: &Fare) -> Result<Value, Mem>
    requires { IsFare fare.now }
    ensures { IfOk result (λ value. view value ≡ Text.fare_data fare.now) }
{
    let class = class_text(fare.class);
    let mut members = key_members(alloc, &fare.key)?;
    put(&mut members, alloc, "amount", Value::from(fare.amount))?;
    put_text(&mut members, alloc, "class", ascii_text(&class))?;
    put_text(&mut members, alloc, "kind", kind_text(fare.kind))?;
    put(&mut members, alloc, "rule", Value::from(fare.rule))?;
    Ok(Value::Object(members))
}

/// The value of what names a fare.
pub fn key_value(alloc: Global, key: &FareKey) -> Result<Value, Mem>
    requires { IsFareKey key.now }
    ensures { IfOk result (λ value. view value ≡ Text.key_data key.now) }
{
    Ok(Value::Object(key_members(alloc, key)?))
}

// The members of what names a fare.
fn key_members(alloc: Global, key: &FareKey) -> Result<Map<String, Value>, AllocError>
    requires { IsFareKey key.now }
    ensures { IfOk result (λ members. object (members_view members.entries) ≡ Text.key_data key.now) }
{
    let mut members = Map::new(alloc);
    put_text(&mut members, alloc, "basis", basis_text(&key.basis))?;
    put_text(&mut members, alloc, "carrier", carrier_text(&key.carrier))?;
    put_text(&mut members, alloc, "from", place_text(&key.from))?;
    put_text(&mut members, alloc, "to", place_text(&key.to))?;
    Ok(members)
}

// The letter of a kind.
fn kind_text(kind: FareKind) -> &'static str
    ensures { result.now ≡ Text.kind_text kind }
{
    match kind {
        FareKind::O => "O",
        FareKind::R => "R",
        FareKind::S => "S",
    }
}
