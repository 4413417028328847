//! Items in order.
ghost use Rattle.std.specs.Prelude.{◌≡◌, ◌<◌, ℕ, IsTrue};
ghost use Rattle.fare_law.specs.Lists.{EachPair};
ghost use Rattle.rule_text.specs.Parts as Parts;

use fare_law::UnitKind;

/// A type whose values have places in an order.
pub trait Ranked {
    ghost rank: { Self → ℕ };

    /// Where it stands.
    fn rank(&self) -> u8
        ensures { result ≡ rank self.now };
}

// A weekday.
impl Ranked for u8 {
    ghost rank = { λ day. day };

    fn rank(&self) -> u8 {
        *self
    }
}

impl Ranked for UnitKind {
    ghost use Rattle.fare_law.specs.RuleLimits.{rank_of_kind};

    ghost rank = { rank_of_kind };

    fn rank(&self) -> u8 {
        match self {
            UnitKind::OneWay => 0,
            UnitKind::RoundTrip => 1,
            UnitKind::OpenJaw => 2,
            UnitKind::Circle => 3,
        }
    }
}

/// Whether each item stands beyond the one before it.
#[tactic(auto, using(crate::proofs::OrderLemmas::order_steps))]
pub fn ascend<T: Ranked>(items: &[T]) -> bool
    ensures test { result ≡ Parts.ascend T.rank items.now }
    ensures pairs { IsTrue result → EachPair (λ one other. T.rank one < T.rank other) items.now }
{
    let mut least = 0;
    for item in items {
        let rank = u16::from(item.rank());
        if rank < least {
            return false;
        }
        least = rank + 1;
    }
    true
}
