//! The rule of a history, and the step that adds to it.
use fare_law::Filing;
use logbook::{Gain, Plain, Play, Rule};

/// The word of a history is its length.
pub struct Counting;

impl Rule<Filing, u64> for Counting {
    ghost use Rattle.std.specs.Prelude.{[]};
    ghost use base.Fml.{ftrue};
    ghost use Rattle.fare_versions.specs.Steps.{IsCounted};

    ghost holds = { IsCounted };

    ghost first = { [] };

    ghost hinted = { λ n log. Unit {0} };

    ghost shows = { λ log. [] };

    ghost keeps = { λ names log. ftrue };

    ghost moves = { λ ask before after answer. Unit {0} };
}

/// Callers trade nothing.
pub struct NoTrade;

impl Gain<Filing, u64> for NoTrade {
    ghost use base.Fml.{ftrue};

    ghost after = { λ names about answer. ftrue };
}

/// The step that adds a filing.
pub struct Add;

impl Play<Filing, u64> for Add {
    ghost use Rattle.fare_versions.specs.Steps.{Adds};

    ghost then = { Adds };
}

impl Plain<Filing, Filing, u64> for Add {
    ghost use Rattle.std.specs.Prelude.{None};

    ghost ask = { λ filing. filing };

    ghost state = { λ filing. None };
}
