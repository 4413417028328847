//! Bounds of residuals by their keys.
ghost use Rattle.std.specs.Prelude.{◌≡◌, ℕ, Option as Maybe, option_and_then};
ghost use Rattle.std.specs.Map.{lookup};
ghost use Rattle.residual_table.specs.declared.key.ResidualKey.{ResidualKey as AnyKey};
ghost use Rattle.residual_table.specs.Found.{key_at};

use crate::ResidualRows;
use cheap_moves::ResidualBounds;
use flight_paths::Position;
use open_unit::OpenUnit;
use residual_keys::Residual;
use residual_table::{ResidualKey, ResidualParts};

/// What runs from residuals cost at least, of those that have a run.
pub trait Bounds {
    // The bound of a key's residual, if it has one.
    ghost bound: { Self → AnyKey → Maybe ℕ };

    /// The bound of a residual. None where it has none, or isn't known.
    fn bound_of(&self, key: ResidualKey) -> Option<u64>
        ensures { result ≡ bound self.now key };
}

/// Rows of residuals, each with a bound or with none.
impl Bounds for ResidualRows {
    ghost bound = { λ rows key. option_and_then (λ bound. bound) (lookup (⟦<ResidualKey as PartialEq>⟧.eq key) rows.entries) };

    fn bound_of(&self, key: ResidualKey) -> Option<u64> {
        self.get(&key).flatten()
    }
}

/// Bounds of keys, as those of the residuals that they stand for.
#[derive(Drop)]
pub struct OfKeys<'a, B> {
    pub bounds: &'a B,
    pub numbers: &'a ResidualParts,
}

impl<'a, B: Bounds> ResidualBounds for OfKeys<'a, B> {
    ghost bound = { λ s x. option_and_then (B.bound s.bounds.now) (key_at ⟦<Position as PartialEq>⟧.eq ⟦<OpenUnit as PartialEq>⟧.eq s.numbers.now x) };

    fn bound_of(&self, residual: &Residual) -> Option<u64> {
        self.bounds.bound_of(self.numbers.find(residual)?)
    }
}
