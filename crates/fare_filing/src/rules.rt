//! Rules with their names as JSON values.
ghost use Rattle.std.specs.Prelude.{◌≡◌, IfOk};
ghost use Rattle.serde_json.specs.View.{view};
ghost use Rattle.fare_law.specs.FilingLimits.{IsRuleNumber};
ghost use Rattle.fare_law.specs.Names.{IsCarrier};
ghost use Rattle.fare_law.specs.RuleLimits.{IsRule};
ghost use Rattle.fare_filing.specs.Text as Text;
ghost use Rattle.fare_filing.specs.Text.{WritesRule};

use crate::members::put_text;
use fare_law::{Carrier, Mem, Rule};
use name_text::carrier_text;
use rule_text::rule_members;
use serde_json::{Map, Value, put};
use std::alloc::Global;

/// The value of a rule with its carrier and its number.
pub fn named_rule_value(
    alloc: Global,
    carrier: &Carrier,
    number: u16,
    rule: &Rule,
) -> Result<Value, Mem>
    requires carrier { IsCarrier carrier.now }
    requires rule { IsRule rule.now }
    ensures { IfOk result (λ value. WritesRule carrier.now number rule.now (view value)) }
{
    let mut members = rule_members(alloc, rule)?;
    put(&mut members, alloc, "rule", Value::from(number))?;
    let carrier = Value::try_from_str(alloc, carrier_text(carrier))?;
    put(&mut members, alloc, "carrier", carrier)?;
    Ok(Value::Object(members))
}

/// The value of what names a rule.
pub fn rule_name_value(alloc: Global, carrier: &Carrier, number: u16) -> Result<Value, Mem>
    requires { IsCarrier carrier.now }
    ensures { IfOk result (λ value. view value ≡ Text.rule_name_data carrier.now number) }
{
    let mut members = Map::new(alloc);
    put_text(&mut members, alloc, "carrier", carrier_text(carrier))?;
    put(&mut members, alloc, "rule", Value::from(number))?;
    Ok(Value::Object(members))
}
