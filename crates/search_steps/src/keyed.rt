//! Outcomes of residuals by numbers.
ghost use Rattle.std.specs.Prelude.{◌<◌, [], IfOk, OnOk, length};
ghost use Rattle.fare_law.specs.Limits.{IsRequest};
ghost use Rattle.fare_law.specs.Lists.{Each};
ghost use Rattle.graph_walk.specs.Steps.{AreOutcomes, LeadToLive, outcomes_of};
ghost use Rattle.residual_keys.specs.Kept.{PartKept};
ghost use Rattle.residual_table.specs.Keys.{Grows, IsLive, residual_at};
ghost use Rattle.search_steps.specs.Giving.{UnitBy};
ghost use Rattle.search_steps.specs.Leads.{leads_of};
ghost use Rattle.search_steps.specs.Numbers.{AreStepLists, StandsIn, StepsAt};
ghost use Rattle.search_steps.specs.Placed.{AddsFour, AddsOfUnit, ArePlaced, MayStand};
ghost use Rattle.search_steps.specs.Tables.{AreTables};

use crate::Case;
use crate::adding::{add_alone, add_of_first, add_of_second, add_opening};
use crate::numbered::{PositionSteps, StepLists, UnitSlot, UnitSteps};
use crate::tables::Tables;
use fare_law::Mem;
use graph_walk::Outcome;
use outlines::lists_give_outcomes;
use residual_table::ResidualKey;
use std::alloc::Global;

/// Where the lists of a residual stand: those of its position, and those of its open units.
#[derive(Clone, Copy)]
pub struct Placed {
    pub at: usize,
    pub first: Option<usize>,
    pub second: Option<usize>,
}

/// The outcomes of a residual by its key, in the room of another list. A position whose table is empty has none, so that no
/// list is asked for there.
pub fn outcomes_of_key(
    alloc: Global,
    case: &Case,
    tables: &mut Tables,
    lists: &mut StepLists,
    key: ResidualKey,
    room: Vec<Outcome<ResidualKey>>,
) -> Result<Vec<Outcome<ResidualKey>>, Mem>
    requires request { IsRequest case.now.request.now }
    requires live { IsLive lists.old.numbers key }
    requires tables { AreTables case.now.book.now case.now.request.now tables.old }
    requires right { AreStepLists case.now.request.now tables.old.kept.items lists.old }
    ensures tables { AreTables case.now.book.now case.now.request.now tables.new }
    ensures right { AreStepLists case.now.request.now tables.new.kept.items lists.new }
    ensures grows { Grows lists.old.numbers lists.new.numbers }
    ensures outcomes { IfOk result (λ v. AreOutcomes (leads_of case.now.book.now case.now.request.now) (residual_at lists.old.numbers key) (outcomes_of (residual_at lists.new.numbers) v.items)) }
    ensures live { IfOk result (λ v. LeadToLive (IsLive lists.new.numbers) v.items) }
{
    lists_give_outcomes();
    let at = lists.find(alloc, case, tables, key.position)?;
    if lists.positions[at].bare.is_empty() {
        let mut none = room;
        none.clear();
        return Ok(none);
    }
    let placed = placed_at(alloc, case, tables, lists, key, at)?;
    given_by(lists, key, &placed, room)
}

/// Where the lists of a residual stand. Those of its open units are made where they aren't known.
fn placed_at(
    alloc: Global,
    case: &Case,
    tables: &Tables,
    lists: &mut StepLists,
    key: ResidualKey,
    at: usize,
) -> Result<Placed, Mem>
    requires request { IsRequest case.now.request.now }
    requires live { IsLive lists.old.numbers key }
    requires tables { AreTables case.now.book.now case.now.request.now tables.now }
    requires right { AreStepLists case.now.request.now tables.now.kept.items lists.old }
    requires found { StepsAt lists.old.positions.items key.position at }
    ensures right { AreStepLists case.now.request.now tables.now.kept.items lists.new }
    ensures grows { Grows lists.old.numbers lists.new.numbers }
    ensures placed { IfOk result (ArePlaced lists.new key) }
{
    let place = lists.positions[at].place;
    let slot = key.first;
    let first = lists.find_unit(alloc, case, tables, at, UnitSlot { place, slot })?;
    let slot = key.second;
    let second = lists.find_unit(alloc, case, tables, at, UnitSlot { place, slot })?;
    Ok(Placed { at, first, second })
}

/// What the lists that stand there give, in the room of another list.
fn given_by(
    lists: &StepLists,
    key: ResidualKey,
    placed: &Placed,
    room: Vec<Outcome<ResidualKey>>,
) -> Result<Vec<Outcome<ResidualKey>>, Mem>
    requires part { PartKept key.part }
    requires units { Each (StandsIn lists.now.unit_steps.items) lists.now.units.items }
    requires placed { ArePlaced lists.now key placed.now }
    ensures { IfOk result (λ v. AddsFour lists.now key placed.now v.items) }
{
    let steps = &lists.positions[placed.at];
    let mut found = room;
    found.clear();
    found.reserve(room_for(lists, key, placed, steps))?;
    add_alone(&mut found, key, steps.alone.as_slice())?;
    add_opening(&mut found, key, steps.opening.as_slice())?;
    add_first(&mut found, lists, key, placed.first)?;
    add_second(&mut found, lists, key, placed.second)?;
    Ok(found)
}

/// How many steps the lists have that may leave something.
fn room_for(lists: &StepLists, key: ResidualKey, placed: &Placed, steps: &PositionSteps) -> usize {
    let opening = if key.second == 0 {
        steps.opening.len()
    } else {
        0
    };
    let units = lists.units.as_slice();
    let first = count_at(units, placed.first);
    let second = count_at(units, placed.second);
    steps
        .alone
        .len()
        .saturating_add(opening)
        .saturating_add(first)
        .saturating_add(second)
}

/// How many steps the list of an open unit has, where there is one.
fn count_at(units: &[UnitSteps], at: Option<usize>) -> usize {
    match at.and_then(|at| units.get(at)) {
        Some(unit) => unit.end.saturating_sub(unit.begin),
        None => 0,
    }
}

/// Adds what the list of the unit that was opened first gives, where there is one.
fn add_first(
    found: &mut Vec<Outcome<ResidualKey>>,
    lists: &StepLists,
    key: ResidualKey,
    at: Option<usize>,
) -> Result<(), Mem>
    requires part { PartKept key.part }
    requires there { MayStand lists.now key.first at }
    ensures { OnOk result (AddsOfUnit (λ r. UnitBy r 0) key lists.now at found.old.items found.new.items) }
{
    match at {
        Some(at) => {
            let unit = &lists.units[at];
            add_of_first(found, key, &lists.unit_steps[unit.begin..unit.end])
        }
        None => Ok(()),
    }
}

/// Adds what the list of the other open unit gives, where there is one.
fn add_second(
    found: &mut Vec<Outcome<ResidualKey>>,
    lists: &StepLists,
    key: ResidualKey,
    at: Option<usize>,
) -> Result<(), Mem>
    requires part { PartKept key.part }
    requires there { MayStand lists.now key.second at }
    ensures { OnOk result (AddsOfUnit (λ r. UnitBy r 1) key lists.now at found.old.items found.new.items) }
{
    match at {
        Some(at) => {
            let unit = &lists.units[at];
            add_of_second(found, key, &lists.unit_steps[unit.begin..unit.end])
        }
        None => Ok(()),
    }
}
