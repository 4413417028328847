//! Reading a filing.
ghost use Rattle.std.specs.Prelude.{◌≡◌, ◌≤◌, length, IfOk};
ghost use Rattle.serde_json.specs.View.{view, items_view};
ghost use Rattle.fare_law.specs.FilingLimits.{IsAction, IsFiling};
ghost use Rattle.fare_law.specs.Lists.{Each};
ghost use Rattle.fare_filing.specs.Reading as Reading;
ghost use Rattle.fare_filing.specs.Reading.{Tells};

use crate::FilingFault;
use crate::actions::read_action;
use crate::compact::compact_filing;
use crate::room::room_for;
use fare_law::{Action, Filing, List, MOST_ACTIONS};
use json_form::{has_members, items_at, read_value};
use serde_json::Value;
use std::alloc::Global;

/// The filing that the bytes spell as JSON, or the first fault.
///
/// `Syntax` exactly where they are no JSON text. Else `Shape` of action 0 exactly where the value
/// is no object of `actions` alone, a list of at most `MOST_ACTIONS`. Else `Shape` or `Rule` exactly at the
/// first action that has such a fault.
pub fn read_filing(alloc: Global, bytes: &[u8]) -> Result<Filing, FilingFault>
    ensures told { Tells result (Reading.filing_of bytes.now) }
    ensures limits { IfOk result IsFiling }
{
    match compact_filing(alloc, bytes)? {
        Some(filing) => Ok(filing),
        None => spelled_filing(alloc, bytes),
    }
}

// The filing of any bytes, by the tree of their JSON.
fn spelled_filing(alloc: Global, bytes: &[u8]) -> Result<Filing, FilingFault>
    ensures told { Tells result (Reading.filing_of bytes.now) }
    ensures limits { IfOk result IsFiling }
{
    let value = read_value(alloc, bytes)?.ok_or(FilingFault::Syntax)?;
    filing(alloc, &value)
}

// The filing of a value.
#[tactic(auto, unfolding(crate::specs::Reading::filing_spelled))]
fn filing(alloc: Global, value: &Value) -> Result<Filing, FilingFault>
    ensures told { Tells result (Reading.filing_spelled (view value.now)) }
    ensures limits { IfOk result IsFiling }
{
    let outer = FilingFault::Shape { action: 0 };
    if !has_members(value, 1) {
        return Err(outer);
    }
    let items = items_at(value, "actions").ok_or(outer)?;
    let actions = few_actions(alloc, items)?;
    Ok(Filing { actions })
}

// The actions of a list of at most `MOST_ACTIONS`.
#[tactic(auto, using(crate::proofs::ActionLemmas::count_steps))]
fn few_actions(alloc: Global, items: &[Value]) -> Result<List<Action>, FilingFault>
    ensures told { Tells result (Reading.few_actions (items_view items.now)) }
    ensures limits { IfOk result (Each IsAction) }
    ensures few { IfOk result (λ actions. length actions ≤ MOST_ACTIONS) }
{
    if items.len() <= MOST_ACTIONS {
        each_action(alloc, items)
    } else {
        Err(FilingFault::Shape { action: 0 })
    }
}

// Each action, numbered from 1, up to the first fault.
#[tactic(auto, using(crate::proofs::ActionLemmas::action_steps))]
fn each_action(alloc: Global, items: &[Value]) -> Result<List<Action>, FilingFault>
    requires { length items.now ≤ MOST_ACTIONS }
    ensures told { Tells result (Reading.actions_from 1 (items_view items.now)) }
    ensures limits { IfOk result (Each IsAction) }
    ensures count { IfOk result (λ actions. length actions ≡ length items.now) }
{
    let mut actions = room_for(alloc, items.len())?;
    for item in items {
        let number = actions.len() as u32 + 1;
        let action = read_action(alloc, item, number)?;
        actions.push(action)?;
    }
    Ok(actions)
}
