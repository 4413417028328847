//! The least prices of a graph as bounds.
ghost use Rattle.std.specs.Prelude.{option_and_then};
ghost use Rattle.std.specs.Map.{lookup};

use crate::Graph;
use residual_table::ResidualKey;
use search_steps::Bounds;

impl Bounds for Graph {
    ghost bound = { λ graph key. option_and_then (λ bound. bound) (lookup (⟦<ResidualKey as PartialEq>⟧.eq key) graph.rows.entries) };

    fn bound_of(&self, key: ResidualKey) -> Option<u64> {
        self.rows.bound_of(key)
    }
}
