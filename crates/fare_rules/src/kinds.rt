//! Sets of unit kinds as sums: one way 1, round trip 2, open jaw 4, circle 8.
ghost use Rattle.std.specs.Prelude.{◌≡◌, ◌^◌, cond};
ghost use Rattle.fare_law.specs.RuleLimits.{rank_of_kind};
ghost use Rattle.fare_rules.specs.Demands as Demands;
ghost use Rattle.fare_rules.specs.Demands.{lists_kind};

use fare_law::{CombineRule, UnitKind};

/// All four kinds.
const ALL_KINDS: u8 = 15;

/// The number of a kind.
pub fn kind_number(kind: UnitKind) -> u8
    ensures { result ≡ 2 ^ rank_of_kind kind }
{
    match kind {
        UnitKind::OneWay => 1,
        UnitKind::RoundTrip => 2,
        UnitKind::OpenJaw => 4,
        UnitKind::Circle => 8,
    }
}

/// The kinds that category 10 allows.
pub fn kinds_of(rule: &Option<CombineRule>) -> u8
    ensures { result ≡ Demands.kinds_of rule.now }
{
    match rule {
        None => ALL_KINDS,
        Some(combine) => {
            let kinds = combine.kinds.as_slice();
            listed(kinds, UnitKind::OneWay)
                + listed(kinds, UnitKind::RoundTrip)
                + listed(kinds, UnitKind::OpenJaw)
                + listed(kinds, UnitKind::Circle)
        }
    }
}

// The number of a kind if it is listed, else 0.
fn listed(kinds: &[UnitKind], kind: UnitKind) -> u8
    ensures { result ≡ cond (lists_kind kinds.now kind) (2 ^ rank_of_kind kind) 0 }
{
    if kinds.contains(&kind) {
        kind_number(kind)
    } else {
        0
    }
}
