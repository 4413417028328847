//! What the steps of lists leave of a residual, by numbers.
ghost use Rattle.std.specs.Prelude.{◌≡◌, ◌≢◌, true, OnOk};
ghost use Rattle.residual_keys.specs.Kept.{PartKept};
ghost use Rattle.search_steps.specs.Giving.{LeftBy, OpenedBy, UnitBy};
ghost use Rattle.search_steps.specs.Numbers.{AddsAll, AddsOne};

use crate::leaving::add_left;
use crate::numbered::Step;
use fare_law::Mem;
use graph_walk::Outcome;
use residual_table::ResidualKey;

/// Adds what components leave where they stand alone.
pub fn add_alone(
    found: &mut Vec<Outcome<ResidualKey>>,
    key: ResidualKey,
    steps: &[Step],
) -> Result<(), Mem>
    requires { PartKept key.part }
    ensures { OnOk result (AddsAll (λ r. LeftBy r true r.units) key steps.now found.old.items found.new.items) }
{
    for step in steps {
        add_left(found, key, step, true, key.first, key.second)?;
    }
    Ok(())
}

/// Adds what components leave where they open a unit.
pub fn add_opening(
    found: &mut Vec<Outcome<ResidualKey>>,
    key: ResidualKey,
    steps: &[Step],
) -> Result<(), Mem>
    requires { PartKept key.part }
    ensures { OnOk result (AddsAll OpenedBy key steps.now found.old.items found.new.items) }
{
    if key.second != 0 {
        return Ok(());
    }
    for step in steps {
        add_opened(found, key, step)?;
    }
    Ok(())
}

/// Adds what a component leaves that opens a unit.
fn add_opened(
    found: &mut Vec<Outcome<ResidualKey>>,
    key: ResidualKey,
    step: &Step,
) -> Result<(), Mem>
    requires part { PartKept key.part }
    requires room { key.second ≡ 0 }
    ensures { OnOk result (AddsOne OpenedBy key step.now found.old.items found.new.items) }
{
    if step.unit == 0 {
        return Ok(());
    }
    if key.first == 0 {
        add_left(found, key, step, true, step.unit, 0)
    } else {
        add_left(found, key, step, true, key.first, step.unit)
    }
}

/// Adds what components leave where they go on in the unit that was opened first, or close it.
pub fn add_of_first(
    found: &mut Vec<Outcome<ResidualKey>>,
    key: ResidualKey,
    steps: &[Step],
) -> Result<(), Mem>
    requires part { PartKept key.part }
    requires is_open { key.first ≢ 0 }
    ensures { OnOk result (AddsAll (λ r. UnitBy r 0) key steps.now found.old.items found.new.items) }
{
    for step in steps {
        add_in_first(found, key, step)?;
    }
    Ok(())
}

/// Adds what a component leaves that goes on in the unit that was opened first, or closes it.
fn add_in_first(
    found: &mut Vec<Outcome<ResidualKey>>,
    key: ResidualKey,
    step: &Step,
) -> Result<(), Mem>
    requires part { PartKept key.part }
    requires is_open { key.first ≢ 0 }
    ensures { OnOk result (AddsOne (λ r. UnitBy r 0) key step.now found.old.items found.new.items) }
{
    if step.unit == 0 {
        add_left(found, key, step, false, key.second, 0)
    } else {
        add_left(found, key, step, false, step.unit, key.second)
    }
}

/// Adds what components leave where they go on in the other open unit, or close it.
pub fn add_of_second(
    found: &mut Vec<Outcome<ResidualKey>>,
    key: ResidualKey,
    steps: &[Step],
) -> Result<(), Mem>
    requires part { PartKept key.part }
    requires is_open { key.second ≢ 0 }
    ensures { OnOk result (AddsAll (λ r. UnitBy r 1) key steps.now found.old.items found.new.items) }
{
    for step in steps {
        add_in_second(found, key, step)?;
    }
    Ok(())
}

/// Adds what a component leaves that goes on in the other open unit, or closes it.
fn add_in_second(
    found: &mut Vec<Outcome<ResidualKey>>,
    key: ResidualKey,
    step: &Step,
) -> Result<(), Mem>
    requires part { PartKept key.part }
    requires is_open { key.second ≢ 0 }
    ensures { OnOk result (AddsOne (λ r. UnitBy r 1) key step.now found.old.items found.new.items) }
{
    add_left(found, key, step, false, key.first, step.unit)
}
