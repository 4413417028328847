//! The rows of a graph, as the walk finds them.
ghost use Rattle.std.specs.Prelude.{◌≡◌, ◌≤◌, length, IfErr, IfOk};
ghost use Rattle.fare_law.specs.Limits.{IsRequest};
ghost use Rattle.graph_walk.specs.Steps.{AreLive, rows_of};
ghost use Rattle.pricing_graph.specs.Graphs.{AreRows, IsTooLarge, fault_as};
ghost use Rattle.search_steps.specs.Cases.{IsSameCase};
ghost use Rattle.search_steps.specs.Keys.{live, state};

use crate::GraphFault;
use fare_rules::limits_are_met;
use graph_walk::WalkFault;
use residual_keys::root;
use search_steps::{
    ListsAfter, ResidualRows, SearchSteps, least_prices_are_least, reached_states_are_reached,
};
use std::alloc::Global;

/// What a search reaches, each once, with the least prices.
pub fn reached_rows(
    alloc: Global,
    budget: u32,
    steps: &mut SearchSteps,
) -> Result<ResidualRows, GraphFault>
    requires { IsRequest steps.old.case.request.now }
    ensures rows { IfOk result (λ rows. AreRows steps.old.case.book.now steps.old.case.request.now (rows_of (state steps.new) rows.entries)) }
    ensures live { IfOk result (λ rows. AreLive (live steps.new) rows.entries) }
    ensures few { IfOk result (λ rows. length rows.entries ≤ budget) }
    ensures large { IfErr result (IsTooLarge steps.old.case.book.now steps.old.case.request.now budget) }
    ensures case { IsSameCase steps.old steps.new }
{
    least_prices_are_least();
    reached_states_are_reached();
    limits_are_met();
    let case = steps.case();
    case.book.limits();
    let root = root(case.book, case.request);
    let root = steps.key_of(root)?;
    match steps.reached(alloc, root, budget, ListsAfter::LetGo) {
        Ok(rows) => Ok(rows),
        Err(fault) => Err(fault_of(fault, budget)),
    }
}

/// The fault of a walk, as that of a graph.
fn fault_of(fault: WalkFault, budget: u32) -> GraphFault
    ensures { result ≡ fault_as budget fault }
{
    match fault {
        WalkFault::TooLarge => GraphFault::TooLarge {
            needed_more_than: budget,
        },
        WalkFault::Mem => GraphFault::Mem,
    }
}
