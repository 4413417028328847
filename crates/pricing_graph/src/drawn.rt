//! Runs that are drawn from a graph.
ghost use Rattle.std.specs.Prelude.{IfOk};
ghost use Rattle.fare_law.specs.Lists.{Each, Matched};
ghost use Rattle.pricing_graph.specs.DrawnRuns.{HasMoves, IsReadAs};

use best_k::Derivation;
use fare_law::{ArrayVec, List, MOST_COMPONENTS, Mem, Move};
use std::alloc::Global;
use ticket_order::moves_of_code;

/// A run from the root, with its price.
#[derive(Drop)]
pub struct DrawnRun {
    pub price: u64,
    pub moves: ArrayVec<Move, MOST_COMPONENTS>,
}

/// Runs whose words are codes, with their moves.
pub fn runs_of_words(alloc: Global, found: &[Derivation]) -> Result<List<DrawnRun>, Mem>
    requires { Each HasMoves found.now }
    ensures { IfOk result (Matched IsReadAs found.now) }
{
    let mut runs = List::new(alloc);
    for derivation in found {
        runs.push(run_of_word(derivation))?;
    }
    Ok(runs)
}

/// A run whose word is a code, with its moves.
fn run_of_word(found: &Derivation) -> DrawnRun
    requires { HasMoves found.now }
    ensures { IsReadAs found.now result }
{
    match moves_of_code(found.word.as_slice()) {
        Some(moves) => DrawnRun {
            price: found.price,
            moves,
        },
        None => unreachable!(),
    }
}
