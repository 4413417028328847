//! A rule of known values.
ghost use Rattle.std.specs.Prelude.{IfOk, IfSome};
ghost use Rattle.fare_law.specs.RuleLimits.{IsRule};

use fare_law::{Mem, Rule};
use json_form::read_value;
use rule_text::{RuleFault, read_rule, rule_value};
use std::alloc::Global;
use std::test::Fail;

// What the text's value is read as, or `None` where it has no value.
fn read(alloc: Global, text: &[u8]) -> Result<Option<Result<Rule, RuleFault>>, Mem>
    ensures { IfOk result (λ found. IfSome found (λ told. IfOk told IsRule)) }
{
    Ok(read_value(alloc, text)?.map(|value| read_rule(alloc, &value)))
}

// The text of the rule that a text spells.
fn written(alloc: Global, text: &[u8]) -> Result<Option<String>, Mem> {
    let Some(Ok(rule)) = read(alloc, text)? else {
        return Ok(None);
    };
    let value = rule_value(alloc, &rule)?;
    Ok(Some(value.to_string(alloc)?))
}

const SPELLED: &[u8] =
    br#"{"carrier":"QX","rule":1,"cat7":365,"cat5":14,"cat10":{"kinds":["circle"],"partners":"any","end_on_end":"never"}}"#;

const WRITTEN: &str =
    r#"{"cat10":{"end_on_end":"never","kinds":["circle"],"partners":"any"},"cat5":14,"cat7":365}"#;

#[test]
fn writes_the_members_by_name(rt: HostRuntime) -> Result<(), Fail> {
    let written = written(rt.alloc(), SPELLED)?;
    assert_eq!(rt; written.as_ref().map(String::as_str), Some(WRITTEN));
    Ok(())
}
