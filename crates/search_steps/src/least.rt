//! The least moves of a residual as a search has them.
ghost use Rattle.std.specs.Prelude.{◌≡◌, IfOk, map};
ghost use Rattle.search_steps.specs.Leads.{state_of};
ghost use Rattle.search_steps.specs.LeastMoves.{least_of};

use cheap_moves::CountedMove;
use fare_law::{List, Mem, Move};
use residual_keys::{Next, Residual};
use std::alloc::Global;

/// A move of a residual that counts under bounds.
#[derive(Drop)]
pub struct LeastMove<K> {
    pub mv: Move,
    pub price: u64,
    /// What it leaves. None: the end of the journey.
    pub next: Option<K>,
    /// Its price and the bound of what it leaves.
    pub total: u128,
}

/// Moves with their totals, as a search has them.
pub fn least_of_each(alloc: Global, found: &[CountedMove]) -> Result<List<LeastMove<Residual>>, Mem>
    ensures { IfOk result (λ ms. ms ≡ map least_of found.now) }
{
    let mut least = List::new(alloc);
    for counted in found {
        least.push(least_of(counted))?;
    }
    Ok(least)
}

/// A move with its total, as a search has it.
fn least_of(counted: &CountedMove) -> LeastMove<Residual>
    ensures { result ≡ least_of counted.now }
{
    let chosen = &counted.chosen;
    LeastMove {
        mv: chosen.mv.copied(),
        price: chosen.price,
        next: left_by(&chosen.next),
        total: counted.total,
    }
}

/// The residual that is left. None at the end of the journey.
fn left_by(next: &Next) -> Option<Residual>
    ensures { result ≡ state_of next.now }
{
    match next {
        Next::Done => None,
        Next::At(residual) => Some(*residual),
    }
}
