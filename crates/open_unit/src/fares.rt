//! What a fare asks of its place in a unit and of the unit's first day.
ghost use Rattle.std.specs.Prelude.{◌↔◌, pos, ◌≤ℤ◌, IsTrue};
ghost use Rattle.fare_law.specs.Units.{MayStand};
ghost use Rattle.open_unit.specs.OpenUnits.{DaysHold};

use crate::Facts;
use fare_law::{FareKind, UnitKind};
use fare_rules::{advance_ok, season_ok, travel_ok};

// Whether a fare of this kind may stand in a unit of this kind.
fn may_stand(fare: FareKind, unit: UnitKind) -> bool
    ensures { IsTrue result ↔ MayStand fare unit }
{
    match fare {
        FareKind::O => true,
        FareKind::R => !matches!(unit, UnitKind::OneWay),
        FareKind::S => matches!(unit, UnitKind::OneWay),
    }
}

/// Whether the fare of a component may stand in a unit of this kind and first day.
pub fn fits(facts: &Facts<'_>, unit: UnitKind, first_day: i32) -> bool
    requires { facts.now.sale ≤ℤ pos 99000 }
    ensures { IsTrue result ↔ (MayStand facts.now.fare.kind unit × DaysHold first_day facts.now) }
{
    may_stand(facts.kind, unit) && days_hold(facts, first_day)
}

// Whether categories 3 and 5 and the ranges of category 14 hold on the unit's first day.
fn days_hold(facts: &Facts<'_>, first_day: i32) -> bool
    requires { facts.now.sale ≤ℤ pos 99000 }
    ensures { IsTrue result ↔ DaysHold first_day facts.now }
{
    season_ok(facts.rule, first_day)
        && advance_ok(facts.rule, facts.sale, first_day)
        && travel_ok(facts.rule, first_day)
}
