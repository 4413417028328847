//! The members of an object of a rule.
ghost use Rattle.std.specs.Prelude.{◌≡◌, map, IfOk, IfSome};
ghost use Rattle.serde_json.specs.View.{view, members_view};
ghost use Rattle.rule_text.specs.Members as Members;

use crate::RuleFault;
use crate::part::RulePart;
use serde_json::{Map, Value};

/// Judges the names of an object's members: each of `required` is there, perhaps some of
/// `optional`, and no others.
///
/// `Range` where the value is no object, else `Unknown` where it has another member, else
/// `Missing` where one of `required` is absent.
pub fn check_members(value: &Value, required: &[&str], optional: &[&str]) -> Result<(), RuleFault>
    ensures { result
        ≡ Members.with_members (map (λ n. n.now) required.now) (map (λ n. n.now) optional.now) (view value.now) }
{
    let members = value.as_object().ok_or(RuleFault::Range)?;
    if !only_named(required, optional, members) {
        return Err(RuleFault::Unknown);
    }
    if !all_there(required, value) {
        return Err(RuleFault::Missing);
    }
    Ok(())
}

// Whether each member's name is one of these or of those.
fn only_named(these: &[&str], those: &[&str], members: &Map<String, Value>) -> bool
    ensures { result
        ≡ Members.only_named (map (λ n. n.now) these.now) (map (λ n. n.now) those.now) (members_view members.now.entries) }
{
    members.keys().all(|name| is_one_of(these, name.as_str()) || is_one_of(those, name.as_str()))
}

// Whether the name is one of these.
fn is_one_of(names: &[&str], name: &str) -> bool
    ensures { result ≡ Members.is_one_of (map (λ n. n.now) names.now) name.now }
{
    names.iter().any(|known| *known == name)
}

// Whether the object has a member of each of these names.
fn all_there(names: &[&str], value: &Value) -> bool
    ensures { result ≡ Members.all_there (map (λ n. n.now) names.now) (view value.now) }
{
    names.iter().all(|name| value.get(*name).is_some())
}

/// The part that a member spells which has to be there.
pub fn part_at<T: RulePart>(value: &Value, name: &str) -> Result<T, RuleFault>
    ensures part { result ≡ Members.part_at T.form name.now (view value.now) }
    ensures limits { IfOk result T.holds }
{
    T::read_part(value.get(name).ok_or(RuleFault::Missing)?)
}

/// The part that a member spells which may be absent.
pub fn optional_at<T: RulePart>(value: &Value, name: &str) -> Result<Option<T>, RuleFault>
    ensures part { result ≡ Members.optional_at T.form name.now (view value.now) }
    ensures limits { IfOk result (λ part. IfSome part T.holds) }
{
    match value.get(name) {
        Some(member) => Ok(Some(T::read_part(member)?)),
        None => Ok(None),
    }
}
