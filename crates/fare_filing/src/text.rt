//! The text of a filing.
ghost use Rattle.std.specs.Prelude.{◌≡◌, IfOk, Ok};
ghost use Rattle.serde_json.specs.View.{view, items_view};
ghost use Rattle.fare_law.specs.FilingLimits.{IsAction, IsFiling};
ghost use Rattle.fare_law.specs.Lists.{Each};
ghost use Rattle.fare_filing.specs.Reading.{filing_of};
ghost use Rattle.fare_filing.specs.Text.{Writes, WritesActions, WritesFiling};

use crate::values::{action_value, sole_value};
use fare_law::{Action, Filing, List, Mem};
use name_text::names_read_again;
use rule_text::names_stand_aside;
use serde_json::Value;
use std::alloc::Global;

/// The text of a filing within its limits: compact, with members ascending by name. It is read
/// again as the filing.
pub fn filing_text(alloc: Global, filing: &Filing) -> Result<List<u8>, Mem>
    requires { IsFiling filing.now }
    ensures text { IfOk result (Writes filing.now) }
    ensures again { IfOk result (λ text. filing_of text ≡ Ok filing.now) }
{
    let value = filing_value(alloc, filing)?;
    let text = value.to_string(alloc)?;
    names_read_again();
    names_stand_aside();
    Ok(List::from_vec(text.into_bytes()))
}

// A filing as a JSON value.
fn filing_value(alloc: Global, filing: &Filing) -> Result<Value, Mem>
    requires { IsFiling filing.now }
    ensures { IfOk result (λ value. WritesFiling filing.now (view value)) }
{
    let actions = action_values(alloc, filing.actions.as_slice())?;
    sole_value(alloc, "actions", Value::Array(actions))
}

// Actions as JSON values.
#[tactic(auto, using(crate::proofs::WrittenLemmas::value_steps))]
fn action_values(alloc: Global, actions: &[Action]) -> Result<Vec<Value>, Mem>
    requires { Each IsAction actions.now }
    ensures { IfOk result (λ values. WritesActions actions.now (items_view values.items)) }
{
    let mut values = Vec::new(alloc);
    for action in actions {
        values.push(action_value(alloc, action)?)?;
    }
    Ok(values)
}
