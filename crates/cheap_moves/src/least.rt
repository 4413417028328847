//! Moves with their totals, and the first of them in the order of totals and codes.
ghost use Rattle.std.specs.Prelude.{◌≡◌, ◌++◌, length, map};
ghost use Rattle.std.specs.Cmp.Lexicographic.{slice_cmp};
ghost use Rattle.std.specs.List.Sorted.{IsPermutation};
ghost use Rattle.std.specs.Ordering.{nat_cmp, ordering_then};
ghost use Rattle.cheap_moves.specs.LeastMoves.{AreFirst, IsSooner};
ghost use Rattle.fare_law.specs.Codes.{move_code};
ghost use Rattle.fare_law.specs.Lists.{AllDifferent, EachPair};

use residual_keys::Chosen;
use std::cmp::Ordering;
use ticket_order::{move_code, order_laws};

/// A move of a residual that counts under bounds.
#[derive(Drop)]
pub struct CountedMove {
    pub chosen: Chosen,
    /// Its price and the bound of what it leaves.
    pub total: u128,
}

/// Keeps the first of moves whose codes differ, as many as are wanted, by their totals and codes.
pub fn keep_first(kept: &mut Vec<CountedMove>, wanted: usize)
    requires { AllDifferent (map (λ m. move_code m.chosen.mv) kept.old.items) }
    ensures { AreFirst wanted kept.old.items kept.new.items }
{
    put_in_order(kept.as_mut_slice());
    kept.truncate(wanted);
}

/// Puts moves whose codes differ into the order of their totals and codes.
fn put_in_order(moves: &mut [CountedMove])
    requires { AllDifferent (map (λ m. move_code m.chosen.mv) moves.old) }
    ensures order { EachPair IsSooner moves.new }
    ensures same { IsPermutation moves.old moves.new }
{
    order_laws();
    moves.sort_unstable_by(|one, other| compared(one, other));
}

/// How two moves compare. Codes, which begin with the numbers of flights, are made only where the totals and the flights are
/// the same.
fn compared(one: &CountedMove, other: &CountedMove) -> Ordering
    ensures { result ≡ ordering_then (nat_cmp one.now.total other.now.total) (slice_cmp nat_cmp (move_code one.now.chosen.mv) (move_code other.now.chosen.mv)) }
{
    if one.total != other.total {
        return one.total.cmp(&other.total);
    }
    match flights_compared(
        one.chosen.mv.flights.as_slice(),
        other.chosen.mv.flights.as_slice(),
    ) {
        Ordering::Equal => move_code(&one.chosen.mv).cmp(&move_code(&other.chosen.mv)),
        differ => differ,
    }
}

/// How the numbers of two lists compare, the shorter list first.
fn flights_compared(one: &[u32], other: &[u32]) -> Ordering
    ensures { result ≡ ordering_then (nat_cmp (length one.now) (length other.now)) (slice_cmp nat_cmp one.now other.now) }
{
    if one.len() != other.len() {
        return one.len().cmp(&other.len());
    }
    one.cmp(other)
}
