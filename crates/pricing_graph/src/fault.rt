//! Why there is no graph.
ghost use Rattle.std.specs.Prelude.{◌≡◌};

use fare_law::Mem;

/// Why there is no graph.
#[derive(Clone, Copy, PartialEq, Eq, Debug)]
pub enum GraphFault {
    /// More residuals are reached than the budget, which is given.
    TooLarge { needed_more_than: u32 },
    /// Want of memory.
    Mem,
}

impl From<Mem> for GraphFault {
    ghost use Rattle.pricing_graph.specs.declared.fault.GraphFault.TheVariants.{Mem};

    ghost from_gives = { λ _ e. e ≡ Mem };

    fn from(_error: Mem) -> GraphFault {
        GraphFault::Mem
    }
}
