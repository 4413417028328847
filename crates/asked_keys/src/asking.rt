//! Residuals whose keys are asked for, without those whose keys another one has.
ghost use Rattle.std.specs.Prelude.{◌≢◌, [], IsTrue, OnOk};
ghost use Rattle.asked_keys.specs.Asking.{HasKeysOf, IsAsked};
ghost use Rattle.fare_law.specs.Lists.{IsIn};
ghost use Rattle.residual_keys.specs.Residuals.{State};

use component_table::same_position;
use fare_law::{List, Mem};
use residual_keys::{OpenUnits, Residual};

/// Adds a residual to those whose keys are asked for, unless the last of these has all its keys.
pub fn add_asked(asked: &mut List<Residual>, residual: Residual) -> Result<(), Mem>
    ensures asked { OnOk result (IsAsked asked.new residual) }
    ensures stays { OnOk result ((x : State) → IsIn x asked.old → IsIn x asked.new) }
{
    if let Some(last) = asked.as_slice().last() {
        if has_keys_of(&residual, last) {
            return Ok(());
        }
    }
    asked.push(residual)?;
    Ok(())
}

/// Whether residuals stand at one position, and a unit is open in the other where it is in the one. Then the
/// other has all keys of the one.
fn has_keys_of(one: &Residual, other: &Residual) -> bool
    ensures { IsTrue result → HasKeysOf one.now other.now }
{
    same_position(&one.at, &other.at) && open_too(one, other)
}

/// Whether a unit is open in the other where it is in the one.
fn open_too(one: &Residual, other: &Residual) -> bool
    ensures { IsTrue result → one.now.units ≢ [] → other.now.units ≢ [] }
{
    OpenUnits::of(one).is_empty() || !OpenUnits::of(other).is_empty()
}
