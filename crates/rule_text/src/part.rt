//! Parts of a rule, and lists of them.
ghost use Rattle.std.specs.Prelude.{◌≡◌, ◌≤◌, Result, IfOk, length};
ghost use Rattle.serde_json.specs.Data.{Data};
ghost use Rattle.serde_json.specs.View.{view, items_view};
ghost use Rattle.fare_law.specs.Lists.{Each};
ghost use Rattle.fare_law.specs.RuleLimits.{IsListOf};
ghost use Rattle.rule_text.specs.Members as Members;
ghost use Rattle.rule_text.specs.Written.{WritesEach, WritesList};
ghost use Rattle.rule_text.specs.declared.fault.RuleFault.{RuleFault as Fault};

use crate::RuleFault;
use fare_law::{ArrayVec, Mem};
use serde_json::Value;
use std::alloc::Global;

/// A part of a rule: what its JSON value spells, the limits of what is read, and what is written.
pub trait RulePart: Drop {
    ghost form: { Data → Result Self Fault };

    ghost holds: { Self → Type 0 };

    ghost writes: { Self → Data → Type 0 };

    /// The part that a value spells, or its first fault.
    fn read_part(value: &Value) -> Result<Self, RuleFault>
        ensures part { result ≡ form (view value.now) }
        ensures limits { IfOk result holds };

    /// The part's value.
    fn part_value(&self, alloc: Global) -> Result<Value, Mem>
        requires { holds self.now }
        ensures { IfOk result (λ value. writes self.now (view value)) };
}

impl<T: RulePart + Default, const N: usize> RulePart for ArrayVec<T, N> {
    ghost form = { Members.list_of N T.form };

    ghost holds = { IsListOf N T.holds };

    ghost writes = { WritesList T.writes };

    fn read_part(value: &Value) -> Result<ArrayVec<T, N>, RuleFault> {
        let items = value.as_array().ok_or(RuleFault::Range)?;
        read_items(items.as_slice())
    }

    fn part_value(&self, alloc: Global) -> Result<Value, Mem> {
        Ok(Value::Array(item_values(alloc, self.as_slice())?))
    }
}

// Items as JSON values.
#[tactic(auto, using(crate::proofs::ItemLemmas::value_steps))]
fn item_values<T: RulePart>(alloc: Global, items: &[T]) -> Result<Vec<Value>, Mem>
    requires { Each T.holds items.now }
    ensures { IfOk result (λ values. WritesEach T.writes items.now (items_view values.items)) }
{
    let mut values = Vec::new(alloc);
    for item in items {
        values.push(item.part_value(alloc)?)?;
    }
    Ok(values)
}

// The items of a list of 1 to `N`.
#[tactic(auto, using(crate::proofs::ItemLemmas::count_steps))]
fn read_items<T: RulePart + Default, const N: usize>(
    items: &[Value],
) -> Result<ArrayVec<T, N>, RuleFault>
    ensures items { result ≡ Members.items_of N T.form (items_view items.now) }
    ensures limits { IfOk result (IsListOf N T.holds) }
{
    if 1 <= items.len() && items.len() <= N {
        read_each(items)
    } else {
        Err(RuleFault::Range)
    }
}

// Each item, in their order, up to the first fault.
#[tactic(auto, using(crate::proofs::ItemLemmas::after_none))]
fn read_each<T: RulePart + Default, const N: usize>(
    items: &[Value],
) -> Result<ArrayVec<T, N>, RuleFault>
    requires { length items.now ≤ N }
    ensures items { result ≡ Members.each_of T.form (items_view items.now) }
    ensures each { IfOk result (Each T.holds) }
    ensures count { IfOk result (λ found. length found ≡ length items.now) }
{
    let mut found = ArrayVec::new();
    for item in items {
        found.push(T::read_part(item)?);
    }
    Ok(found)
}
