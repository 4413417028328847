//! The least price of a request.
ghost use Rattle.std.specs.Prelude.{◌≡◌, IfErr, IfOk, OnOk};
ghost use Rattle.fare_calendar.specs.Sharing.{SharesMoves};
ghost use Rattle.fare_calendar.specs.FirstRuns.{IsFirstPrice, TellRuns};
ghost use Rattle.fare_calendar.specs.LeastPrices.{IsLeastPrice};
ghost use Rattle.fare_law.specs.Limits.{IsRequest};
ghost use Rattle.fare_law.specs.Lists.{IsIn};
ghost use Rattle.graph_walk.specs.Steps.{KeepsStates, rows_of};
ghost use Rattle.graph_walk.specs.Walks.{states};
ghost use Rattle.pricing_graph.specs.Graphs.{IsTooLarge, fault_as};
ghost use Rattle.residual_keys.specs.Searches.{ReachesMoreThan};
ghost use Rattle.search_steps.specs.Cases.{IsSameCase};
ghost use Rattle.search_steps.specs.Keys.{live, state};
ghost use Rattle.search_steps.specs.Leads.{IsRoot};

use crate::first_runs::first_run;
use fare_law::{Mem, Request};
use fare_rules::limits_are_met;
use graph_walk::WalkFault;
use pricing_graph::GraphFault;
use residual_keys::root;
use residual_table::ResidualKey;
use search_steps::{
    Bounds, ListsAfter, ResidualRows, SearchSteps, least_prices_are_least,
    reached_states_are_reached,
};
use std::alloc::Global;

/// What the first run from the root of a request costs, in the steps of a request that shares its moves. None where there
/// is no run. Too large exactly where more residuals are reached from the root than the budget.
pub fn least_price(
    alloc: Global,
    budget: u32,
    steps: &mut SearchSteps,
    request: &Request,
) -> Result<Option<u64>, GraphFault>
    requires steps { IsRequest steps.old.case.request.now }
    requires request { IsRequest request.now }
    requires shares { SharesMoves steps.old.case.book.now steps.old.case.request.now request.now }
    ensures price { IfOk result (IsLeastPrice steps.old.case.book.now request.now) }
    ensures fits { OnOk result (ReachesMoreThan budget steps.old.case.book.now request.now → ⊥) }
    ensures large { IfErr result (IsTooLarge steps.old.case.book.now request.now budget) }
    ensures case { IsSameCase steps.old steps.new }
{
    let key = root_key(steps, request)?;
    let rows = reached_rows(alloc, budget, steps, request, key)?;
    let price = first_price(alloc, steps, &rows, key)?;
    Ok(price)
}

/// The key of the residual with which the search of a request begins.
fn root_key(steps: &mut SearchSteps, request: &Request) -> Result<ResidualKey, Mem>
    requires { IsRequest request.now }
    ensures live { IfOk result (live steps.new) }
    ensures root { IfOk result (λ key. IsRoot steps.old.case.book.now request.now (state steps.new key)) }
    ensures case { IsSameCase steps.old steps.new }
{
    let case = steps.case();
    steps.key_of(root(case.book, request))
}

/// The rows of what is reached from the root of a request.
fn reached_rows(
    alloc: Global,
    budget: u32,
    steps: &mut SearchSteps,
    request: &Request,
    key: ResidualKey,
) -> Result<ResidualRows, GraphFault>
    requires steps { IsRequest steps.old.case.request.now }
    requires request { IsRequest request.now }
    requires shares { SharesMoves steps.old.case.book.now steps.old.case.request.now request.now }
    requires live { live steps.old key }
    requires root { IsRoot steps.old.case.book.now request.now (state steps.old key) }
    ensures rows { IfOk result (λ rows. TellRuns steps.new rows.entries) }
    ensures has { IfOk result (λ rows. IsIn (state steps.new key) (states (rows_of (state steps.new) rows.entries))) }
    ensures fits { OnOk result (ReachesMoreThan budget steps.old.case.book.now request.now → ⊥) }
    ensures large { IfErr result (IsTooLarge steps.old.case.book.now request.now budget) }
    ensures keeps { KeepsStates (live steps.old) (live steps.new) (state steps.old) (state steps.new) }
    ensures case { IsSameCase steps.old steps.new }
{
    least_prices_are_least();
    reached_states_are_reached();
    limits_are_met();
    steps.case().book.limits();
    match steps.reached(alloc, key, budget, ListsAfter::Kept) {
        Ok(rows) => Ok(rows),
        Err(fault) => Err(fault_of(fault, budget)),
    }
}

/// What the first run from a residual of the rows costs. None where there is no run.
fn first_price(
    alloc: Global,
    steps: &mut SearchSteps,
    rows: &ResidualRows,
    key: ResidualKey,
) -> Result<Option<u64>, Mem>
    requires rows { TellRuns steps.old rows.now.entries }
    requires live { live steps.old key }
    requires has { IsIn (state steps.old key) (states (rows_of (state steps.old) rows.now.entries)) }
    ensures price { IfOk result (IsFirstPrice steps.old.case.book.now steps.old.case.request.now (state steps.old key)) }
    ensures case { IsSameCase steps.old steps.new }
{
    steps.keys_tell();
    let Some(price) = rows.bound_of(key) else {
        return Ok(None);
    };
    first_run(alloc, steps, rows, key, 18)?;
    Ok(Some(price))
}

/// The fault of a walk, as that of a graph.
fn fault_of(fault: WalkFault, budget: u32) -> GraphFault
    ensures { result ≡ fault_as budget fault }
{
    match fault {
        WalkFault::TooLarge => GraphFault::TooLarge {
            needed_more_than: budget,
        },
        WalkFault::Mem => GraphFault::Mem,
    }
}
