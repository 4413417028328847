//! Actions as JSON values.
ghost use Rattle.std.specs.Prelude.{◌≡◌, IfOk};
ghost use Rattle.serde_json.specs.View.{view};
ghost use Rattle.fare_law.specs.FilingLimits.{IsAction};
ghost use Rattle.fare_filing.specs.Text.{WritesAction, sole};

use crate::fares::{fare_value, key_value};
use crate::rows::{seat_key_value, seats_value};
use crate::rules::{named_rule_value, rule_name_value};
use fare_law::{Action, Mem};
use serde_json::{Map, Value, put};
use std::alloc::Global;

/// The value of an action within its limits.
#[tactic(auto, using(crate::proofs::WrittenLemmas::wraps))]
pub fn action_value(alloc: Global, action: &Action) -> Result<Value, Mem>
    requires { IsAction action.now }
    ensures { IfOk result (λ value. WritesAction action.now (view value)) }
{
    match action {
        Action::PutFare(fare) => sole_value(alloc, "put_fare", fare_value(alloc, fare)?),
        Action::DropFare(key) => sole_value(alloc, "drop_fare", key_value(alloc, key)?),
        Action::PutRule(carrier, number, rule) => {
            let value = named_rule_value(alloc, carrier, *number, rule)?;
            sole_value(alloc, "put_rule", value)
        }
        Action::DropRule(carrier, number) => {
            let value = rule_name_value(alloc, carrier, *number)?;
            sole_value(alloc, "drop_rule", value)
        }
        Action::PutSeats(key, seats) => {
            sole_value(alloc, "put_seats", seats_value(alloc, key, seats)?)
        }
        Action::DropSeats(key) => sole_value(alloc, "drop_seats", seat_key_value(alloc, key)?),
    }
}

/// An object of one member.
pub fn sole_value(alloc: Global, name: &str, value: Value) -> Result<Value, Mem>
    ensures { IfOk result (λ made. view made ≡ sole name.now (view value)) }
{
    let mut members = Map::new(alloc);
    put(&mut members, alloc, name, value)?;
    Ok(Value::Object(members))
}
