//! The items of a list.
ghost use Rattle.std.specs.Prelude.{◌≡◌, IfOk, IfSome, Option, option_map};
ghost use Rattle.serde_json.specs.Data.{Data};
ghost use Rattle.serde_json.specs.View.{view, items_view};
ghost use Rattle.fare_law.specs.Lists.{Each};
ghost use Rattle.json_form.specs.Items as Items;

use fare_law::{List, Mem};
use serde_json::Value;
use std::alloc::Global;

/// A type whose values have a form in JSON, with what holds of each value that is read.
pub trait FromJson: Drop {
    ghost form: { Data → Option Self };

    ghost holds: { Self → Type 0 };

    /// The value of this type, or `None` where the JSON value isn't of the form.
    fn from_json(value: &Value) -> Option<Self>
        ensures form { result ≡ form (view value.now) }
        ensures holds { IfSome result holds };
}

/// What each item is read as, or `None` where one isn't of its form.
#[tactic(auto, using(crate::proofs::ItemLemmas::item_steps))]
pub fn each<T: FromJson>(alloc: Global, items: &[Value]) -> Result<Option<List<T>>, Mem>
    ensures items { IfOk result (λ found. found ≡ Items.each_item T.form (items_view items.now)) }
    ensures holds { IfOk result (λ found. IfSome found (Each T.holds)) }
{
    let mut found = List::new(alloc);
    for item in items {
        let Some(one) = T::from_json(item) else {
            return Ok(None);
        };
        found.push(one)?;
    }
    Ok(Some(found))
}

/// The item of a list that has no other.
#[tactic(auto, using(crate::proofs::ItemLemmas::only_item_cases))]
pub fn only_item<'v>(items: &'v [Value]) -> Option<&'v Value>
    ensures { option_map (λ v. view v.now) result ≡ Items.only_item (items_view items.now) }
{
    if items.len() == 1 {
        Some(&items[0])
    } else {
        None
    }
}
