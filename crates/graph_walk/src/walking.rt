//! The walk.
ghost use Rattle.std.specs.Prelude.{◌≡◌, ◌⊎◌, ◌<◌, ◌≤◌, length, IfErr, IfOk, None, OnOk, Some};
ghost use Rattle.std.specs.Map.{lookup};
ghost use Rattle.fare_law.specs.Lists.{AllDifferent, Each, IsIn};
ghost use Rattle.graph_walk.specs.Walks.{AreLeast, AreReached, Costs, IsShort, LeastBy, Reached, states};
ghost use Rattle.graph_walk.specs.Steps.{AllAbove, AreLive, ExceedsIf, Good, KeepsStates, TellsStates, Walked, rows_of};

use crate::faults::WalkFault;
use crate::rows::{lesser, put};
use crate::source::Steps;
use crate::table::{Rows, Spread};
use std::alloc::Global;

/// All states that are reached from the root's, each once, with the least price of a run from it.
pub fn walk<K: Eq + Copy, C, S: Steps<K, C>, N: Spread<K>>(
    alloc: Global,
    context: &C,
    root: K,
    budget: u32,
    steps: &mut S,
) -> Result<Rows<K, N>, WalkFault>
    requires fits { S.fits context.now steps.old }
    requires live { S.live steps.old root }
    requires tells { TellsStates (S.live steps.old) (S.state steps.old) K.eq }
    requires short { IsShort (S.leads context.now) S.level (S.state steps.old root) }
    ensures reached { IfOk result (λ rows. AreReached (S.leads context.now) (S.state steps.old root) (states (rows_of (S.state steps.new) rows.entries))) }
    ensures least { IfOk result (λ rows. AreLeast (S.leads context.now) (rows_of (S.state steps.new) rows.entries)) }
    ensures few { IfOk result (λ rows. length rows.entries ≤ budget) }
    ensures known { IfOk result (λ rows. Each (S.known context.now steps.new) (states (rows_of (S.state steps.new) rows.entries))) }
    ensures alive { IfOk result (λ rows. AreLive (S.live steps.new) rows.entries) }
    ensures tells { OnOk result (TellsStates (S.live steps.new) (S.state steps.new) K.eq) }
    ensures keeps { OnOk result (KeepsStates (S.live steps.old) (S.live steps.new) (S.state steps.old) (S.state steps.new)) }
    ensures later { S.later steps.old steps.new }
    ensures large { IfErr result (ExceedsIf (Reached (S.leads context.now) (S.state steps.old root)) budget) }
{
    let mut rows = Rows::new(alloc, budget)?;
    least_from(alloc, context, root, budget, steps, &mut rows)?;
    Ok(rows)
}

/// The least price of a run from the key's state; each state that is reached from it has a row then.
#[cycle(least)]
fn least_from<K: Eq + Copy, C, S: Steps<K, C>, N: Spread<K>>(
    alloc: Global,
    context: &C,
    key: K,
    budget: u32,
    steps: &mut S,
    rows: &mut Rows<K, N>,
) -> Result<Option<u64>, WalkFault>
    requires fits { S.fits context.now steps.old }
    requires live { S.live steps.old key }
    requires alive { AreLive (S.live steps.old) rows.old.entries }
    requires tells { TellsStates (S.live steps.old) (S.state steps.old) K.eq }
    requires short { IsShort (S.leads context.now) S.level (S.state steps.old key) }
    requires once { AllDifferent (states (rows_of (S.state steps.old) rows.old.entries)) }
    requires above { AllAbove (S.leads context.now) S.level (S.known context.now steps.old) (rows_of (S.state steps.old) rows.old.entries) (S.state steps.old key) }
    requires few { length rows.old.entries ≤ budget }
    ensures walked { OnOk result (Walked (S.leads context.now) (S.known context.now steps.old) (S.known context.now steps.new) (S.state steps.old key) (rows_of (S.state steps.old) rows.old.entries) (rows_of (S.state steps.new) rows.new.entries)) }
    ensures good { OnOk result (Good (S.leads context.now) (S.known context.now steps.new) (rows_of (S.state steps.new) rows.new.entries) (S.state steps.old key)) }
    ensures least { IfOk result (LeastBy (Costs (S.leads context.now) (Some (S.state steps.old key)))) }
    ensures few { OnOk result (length rows.new.entries ≤ budget) }
    ensures alive { OnOk result (AreLive (S.live steps.new) rows.new.entries) }
    ensures tells { OnOk result (TellsStates (S.live steps.new) (S.state steps.new) K.eq) }
    ensures keeps { OnOk result (KeepsStates (S.live steps.old) (S.live steps.new) (S.state steps.old) (S.state steps.new)) }
    ensures later { S.later steps.old steps.new }
    ensures large { IfErr result (ExceedsIf (λ x. IsIn x (states (rows_of (S.state steps.old) rows.old.entries)) ⊎ Reached (S.leads context.now) (S.state steps.old key) x) budget) }
{
    match rows.get(&key) {
        Some(known) => Ok(known),
        None if rows.len() >= budget as usize => Err(WalkFault::TooLarge),
        None => least_of_new(alloc, context, key, budget, steps, rows),
    }
}

/// The same from a state that has no row yet.
// Kept apart, so that the loop finds the row of a state that has one without a call.
#[cycle(least)]
#[inline(never)]
fn least_of_new<K: Eq + Copy, C, S: Steps<K, C>, N: Spread<K>>(
    alloc: Global,
    context: &C,
    key: K,
    budget: u32,
    steps: &mut S,
    rows: &mut Rows<K, N>,
) -> Result<Option<u64>, WalkFault>
    requires fits { S.fits context.now steps.old }
    requires live { S.live steps.old key }
    requires alive { AreLive (S.live steps.old) rows.old.entries }
    requires tells { TellsStates (S.live steps.old) (S.state steps.old) K.eq }
    requires short { IsShort (S.leads context.now) S.level (S.state steps.old key) }
    requires once { AllDifferent (states (rows_of (S.state steps.old) rows.old.entries)) }
    requires above { AllAbove (S.leads context.now) S.level (S.known context.now steps.old) (rows_of (S.state steps.old) rows.old.entries) (S.state steps.old key) }
    requires few { length rows.old.entries < budget }
    requires new { lookup (K.eq key) rows.old.entries ≡ None }
    ensures walked { OnOk result (Walked (S.leads context.now) (S.known context.now steps.old) (S.known context.now steps.new) (S.state steps.old key) (rows_of (S.state steps.old) rows.old.entries) (rows_of (S.state steps.new) rows.new.entries)) }
    ensures good { OnOk result (Good (S.leads context.now) (S.known context.now steps.new) (rows_of (S.state steps.new) rows.new.entries) (S.state steps.old key)) }
    ensures least { IfOk result (LeastBy (Costs (S.leads context.now) (Some (S.state steps.old key)))) }
    ensures few { OnOk result (length rows.new.entries ≤ budget) }
    ensures alive { OnOk result (AreLive (S.live steps.new) rows.new.entries) }
    ensures tells { OnOk result (TellsStates (S.live steps.new) (S.state steps.new) K.eq) }
    ensures keeps { OnOk result (KeepsStates (S.live steps.old) (S.live steps.new) (S.state steps.old) (S.state steps.new)) }
    ensures later { S.later steps.old steps.new }
    ensures large { IfErr result (ExceedsIf (λ x. IsIn x (states (rows_of (S.state steps.old) rows.old.entries)) ⊎ Reached (S.leads context.now) (S.state steps.old key) x) budget) }
{
    let place = rows.len();
    rows.add(key, None)?;
    let outcomes = steps.outcomes(alloc, context, key)?;
    let mut least = None;
    for outcome in outcomes.as_slice() {
        let rest = match outcome.next {
            None => Some(0),
            Some(next) => least_from(alloc, context, next, budget, steps, rows)?,
        };
        least = lesser(least, rest, outcome.price);
    }
    steps.take_back(outcomes);
    put(rows, place, key, least)?;
    Ok(least)
}
