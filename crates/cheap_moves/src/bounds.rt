//! Bounds of residuals.
ghost use Rattle.std.specs.Prelude.{◌≡◌, ℕ, Option as Maybe};
ghost use Rattle.cheap_moves.specs.Within.{rest_of};
ghost use Rattle.residual_keys.specs.Residuals.{State};

use residual_keys::{Next, Residual};

/// What runs from residuals cost at least, of those that have a run.
pub trait ResidualBounds {
    // The bound of a residual, if it has one.
    ghost bound: { Self → State → Maybe ℕ };

    /// The bound of a residual. None where it has none, or isn't known.
    fn bound_of(&self, residual: &Residual) -> Option<u64>
        ensures { result ≡ bound self.now residual.now };
}

/// What a run costs at least after a move that leaves this: nothing at the end of the journey. None where
/// what is left has no bound.
pub fn rest_after<B: ResidualBounds>(bounds: &B, next: &Next) -> Option<u64>
    ensures { result ≡ rest_of (B.bound bounds.now) next.now }
{
    match next {
        Next::Done => Some(0),
        Next::At(residual) => bounds.bound_of(residual),
    }
}
