//! Writing a rule.
ghost use Rattle.std.specs.Prelude.{◌≡◌, IfOk, codes};
ghost use Rattle.serde_json.specs.Data.{Data, Members, object, put};
ghost use Rattle.serde_json.specs.View.{view, members_view};
ghost use Rattle.fare_law.specs.RuleLimits.{IsRule};
ghost use Rattle.fare_law.specs.declared.rules.Rule.{Rule as RuleData};
ghost use Rattle.rule_text.specs.Again.{Spells};
ghost use Rattle.rule_text.specs.Rules.{rule_of};
ghost use Rattle.rule_text.specs.Written.{WritesRule, WritesRuleObject};

use crate::objects::put_optional;
use fare_law::{Mem, Rule};
use serde_json::{Map, Value};
use std::alloc::Global;

/// The JSON object of a rule within its limits: the members of the categories that it has,
/// ascending by name. It is read again as the rule.
pub fn rule_value(alloc: Global, rule: &Rule) -> Result<Value, Mem>
    requires { IsRule rule.now }
    ensures written { IfOk result (λ value. WritesRuleObject rule.now (view value)) }
    ensures again { IfOk result (λ value. Spells 4 rule_of rule.now (view value)) }
{
    Ok(Value::Object(rule_members(alloc, rule)?))
}

/// The members of that object. It has neither `carrier` nor `rule`: whoever writes a `put_rule`
/// adds them to these.
pub fn rule_members(alloc: Global, rule: &Rule) -> Result<Map<String, Value>, Mem>
    requires { IsRule rule.now }
    ensures written { IfOk result (λ members. WritesRule rule.now (members_view members.entries)) }
    ensures again { IfOk result (λ members. Spells 4 rule_of rule.now (object (members_view members.entries))) }
{
    let mut members = Map::new(alloc);
    put_optional(alloc, &mut members, "cat10", &rule.cat10)?;
    put_optional(alloc, &mut members, "cat12", &rule.cat12)?;
    put_optional(alloc, &mut members, "cat14", &rule.cat14)?;
    put_optional(alloc, &mut members, "cat2", &rule.cat2)?;
    put_optional(alloc, &mut members, "cat3", &rule.cat3)?;
    put_optional(alloc, &mut members, "cat4", &rule.cat4)?;
    put_optional(alloc, &mut members, "cat5", &rule.cat5)?;
    put_optional(alloc, &mut members, "cat6", &rule.cat6)?;
    put_optional(alloc, &mut members, "cat7", &rule.cat7)?;
    put_optional(alloc, &mut members, "cat8", &rule.cat8)?;
    put_optional(alloc, &mut members, "cat9", &rule.cat9)?;
    Ok(members)
}

/// A rule has one value.
pub fn one_value_of_rules()
    ensures { (rule : RuleData) (ms ns : Members) → WritesRule rule ms → WritesRule rule ns → ms ≡ ns }
{}

/// A carrier and a number that are added to an object change nothing in the rule that it spells.
pub fn names_stand_aside()
    ensures { (carrier number : Data) (ms : Members)
        → rule_of (object (put (codes "carrier") carrier (put (codes "rule") number ms))) ≡ rule_of (object ms) }
{}
