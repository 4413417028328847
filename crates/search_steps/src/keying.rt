//! Least moves by the keys of what they leave.
ghost use Rattle.std.specs.Prelude.{◌≡◌, IfOk, IfSome, Some, map, option_map};
ghost use Rattle.fare_law.specs.Lists.{Each};
ghost use Rattle.residual_table.specs.Found.{key_at};
ghost use Rattle.residual_table.specs.Keys.{IsLive, residual_at};
ghost use Rattle.search_steps.specs.LeastMoves.{HasRest, LeaveLive, least_as};
ghost use Rattle.search_steps.specs.Numbers.{HasKey};

use crate::bounds::OfKeys;
use crate::{Bounds, LeastMove};
use cheap_moves::ResidualBounds;
use fare_law::{List, Mem};
use flight_paths::Position;
use open_unit::OpenUnit;
use residual_keys::Residual;
use residual_table::{ResidualKey, ResidualParts, keys_found};
use std::alloc::Global;

/// Moves with the keys of what they leave, where each leaves the end or what has a bound.
pub fn keyed_moves<'a, B: Bounds>(
    alloc: Global,
    keyed: &OfKeys<'a, B>,
    found: &[LeastMove<Residual>],
) -> Result<List<LeastMove<ResidualKey>>, Mem>
    requires { Each (HasRest (⟦<OfKeys<'a, B> as ResidualBounds>⟧.bound keyed.now)) found.now }
    ensures same { IfOk result (λ ms. map (least_as (residual_at keyed.now.numbers.now)) ms ≡ found.now) }
    ensures live { IfOk result (LeaveLive (IsLive keyed.now.numbers.now)) }
{
    let mut moves = List::new(alloc);
    for least in found {
        moves.push(keyed_move(keyed.numbers, least))?;
    }
    Ok(moves)
}

/// A move with the key of what it leaves.
fn keyed_move(numbers: &ResidualParts, least: &LeastMove<Residual>) -> LeastMove<ResidualKey>
    requires { IfSome least.now.next (HasKey (key_at ⟦<Position as PartialEq>⟧.eq ⟦<OpenUnit as PartialEq>⟧.eq numbers.now)) }
    ensures same { least_as (residual_at numbers.now) result ≡ least.now }
    ensures live { IfSome result.next (IsLive numbers.now) }
{
    LeastMove {
        mv: least.mv.copied(),
        price: least.price,
        next: key_of(numbers, &least.next),
        total: least.total,
    }
}

/// The key of what is left. None at the end of the journey.
fn key_of(numbers: &ResidualParts, next: &Option<Residual>) -> Option<ResidualKey>
    requires { IfSome next.now (HasKey (key_at ⟦<Position as PartialEq>⟧.eq ⟦<OpenUnit as PartialEq>⟧.eq numbers.now)) }
    ensures same { option_map (residual_at numbers.now) result ≡ next.now }
    ensures live { IfSome result (IsLive numbers.now) }
{
    let Some(residual) = next else {
        return None;
    };
    residual.keeps();
    numbers.keeps();
    keys_found();
    match numbers.find(residual) {
        Some(key) => Some(key),
        None => unreachable!(),
    }
}
