//! Marks of entries by numbers.
ghost use Rattle.std.specs.Prelude.{◌≡◌, IfOk};
ghost use Rattle.residual_table.specs.Keys.{Grows};
ghost use Rattle.search_steps.specs.Numbers.{AreBare, IsBare};

use crate::numbered::Step;
use fare_law::Mem;
use outlines::{Entry, ends_of};
use residual_table::ResidualParts;
use std::alloc::Global;

/// The marks of entries where they leave no unit open, by numbers, in the order of the entries.
pub fn bare_steps(
    alloc: Global,
    numbers: &mut ResidualParts,
    entries: &[Entry],
) -> Result<Vec<Step>, Mem>
    ensures steps { IfOk result (λ v. AreBare numbers.new entries.now v.items) }
    ensures grows { Grows numbers.old numbers.new }
{
    let mut steps = Vec::with_capacity(alloc, entries.len())?;
    for entry in entries {
        let step = bare_step(numbers, entry)?;
        steps.push(step)?;
    }
    Ok(steps)
}

/// The mark of an entry where it leaves no unit open, by numbers.
fn bare_step(numbers: &mut ResidualParts, entry: &Entry) -> Result<Step, Mem>
    ensures step { IfOk result (IsBare numbers.new entry.now) }
    ensures grows { Grows numbers.old numbers.new }
{
    let after = numbers.position_slot(&entry.outline.after)?;
    Ok(Step {
        after,
        unit: 0,
        carrier: entry.outline.carrier,
        ends: ends_of(&entry.rule.cat10),
        price: entry.price,
    })
}
