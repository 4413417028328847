//! A bucket of the least moves that were seen: where it has many more than are wanted, only the first stay.
ghost use Rattle.std.specs.Prelude.{◌≡◌, ◌⊎◌, ◌≤◌, ◌++◌, IsTrue, OnOk, Some, length, map};
ghost use Rattle.cheap_moves.specs.LeastMoves.{AreFirst, counted};
ghost use Rattle.fare_law.specs.Codes.{move_code};
ghost use Rattle.fare_law.specs.Lists.{AllDifferent, OnLast};

use crate::bounds::{ResidualBounds, rest_after};
use crate::least::{CountedMove, keep_first};
use fare_law::Mem;
use residual_keys::Chosen;

/// Adds moves with their totals.
pub fn add_counted<B: ResidualBounds>(
    kept: &mut Vec<CountedMove>,
    found: &[Chosen],
    bounds: &B,
) -> Result<(), Mem>
    ensures { OnOk result (kept.new.items ≡ kept.old.items ++ map (counted (B.bound bounds.now)) found.now) }
{
    for chosen in found {
        kept.push(counted(chosen, bounds))?;
    }
    Ok(())
}

/// A move with its total.
fn counted<B: ResidualBounds>(chosen: &Chosen, bounds: &B) -> CountedMove
    ensures { result ≡ counted (B.bound bounds.now) chosen.now }
{
    let rest = rest_after(bounds, &chosen.next).unwrap_or(0);
    CountedMove {
        chosen: Chosen {
            mv: chosen.mv.copied(),
            price: chosen.price,
            next: chosen.next,
        },
        total: u128::from(chosen.price) + u128::from(rest),
    }
}

/// Whether a bucket has many more moves than are wanted: twice as many, and some hundreds, so that it is seldom sorted.
pub fn is_full(kept: &[CountedMove], wanted: usize) -> bool
    ensures { IsTrue result → wanted ≤ length kept.now }
{
    kept.len() > wanted.saturating_mul(2).saturating_add(512)
}

/// Keeps only the first moves, as many as are wanted. What is returned is the limit of others that may be among the
/// first: the total of the last that is kept.
pub fn cut(kept: &mut Vec<CountedMove>, wanted: usize, limit: Option<u128>) -> Option<u128>
    requires { AllDifferent (map (λ m. move_code m.chosen.mv) kept.old.items) }
    ensures first { AreFirst wanted kept.old.items kept.new.items }
    ensures limit { (result ≡ limit) ⊎ OnLast (λ m. result ≡ Some m.total) kept.new.items }
{
    keep_first(kept, wanted);
    match kept.as_slice() {
        [.., last] => Some(last.total),
        [] => limit,
    }
}
