//! The steps of moves.
ghost use Rattle.std.specs.Prelude.{◌≡◌, ◌<◌, ◌^◌, map, position, IfOk};
ghost use Rattle.fare_law.specs.Codes.{move_code};
ghost use Rattle.fare_law.specs.Lists.{Each};
ghost use Rattle.std.specs.Map.{keys_of};
ghost use Rattle.pricing_graph.specs.Givers.{step_as};

use crate::Graph;
use best_steps::Step;
use fare_law::{List, Mem, Move};
use residual_table::ResidualKey;
use search_steps::LeastMove;
use std::alloc::Global;
use ticket_order::move_code;

/// The steps of moves, which lead to nodes of the graph.
pub fn steps_of(
    alloc: Global,
    graph: &Graph,
    least: &[LeastMove<ResidualKey>],
) -> Result<List<Step>, Mem>
    requires { Each (λ m. m.total < 2 ^ 64) least.now }
    ensures { IfOk result (λ steps. steps ≡ map (step_as (λ k. position (⟦<ResidualKey as PartialEq>⟧.eq k) (keys_of graph.now.rows.entries))) least.now) }
{
    let mut steps = List::new(alloc);
    for mv in least {
        let step = step_of(alloc, graph, mv)?;
        steps.push(step)?;
    }
    Ok(steps)
}

/// The step of a move: its code is the word.
fn step_of(alloc: Global, graph: &Graph, least: &LeastMove<ResidualKey>) -> Result<Step, Mem>
    requires { least.now.total < 2 ^ 64 }
    ensures { IfOk result (λ step. step ≡ step_as (λ k. position (⟦<ResidualKey as PartialEq>⟧.eq k) (keys_of graph.now.rows.entries)) least.now) }
{
    let next = match least.next {
        None => None,
        Some(key) => graph.node(key),
    };
    let word = word_of(alloc, &least.mv)?;
    Ok(Step {
        price: least.price,
        total: least.total as u64,
        word,
        next,
    })
}

/// The code of a move.
fn word_of(alloc: Global, mv: &Move) -> Result<List<u64>, Mem>
    ensures { IfOk result (λ word. word ≡ move_code mv.now) }
{
    let mut word = List::new(alloc);
    for number in move_code(mv).as_slice() {
        word.push(*number)?;
    }
    Ok(word)
}
