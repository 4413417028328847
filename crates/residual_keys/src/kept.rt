//! What the type of residuals keeps, and residuals of given parts.
ghost use Rattle.std.specs.Prelude.{◌≡◌, ◌↔◌, IfSome, IsSome, IsTrue};
ghost use Rattle.open_unit.specs.Ranges.{MarksAgree, UnitInRanges};
ghost use Rattle.residual_keys.specs.Kept.{AreKept, InTurn, IsResidual, PartKept, open_units};
ghost use Rattle.fare_rules.specs.Ranges.{IsStoredDay};

use crate::{Residual, TicketPart};
use flight_paths::Position;
use open_unit::{CarrierMark, OpenUnit, RuleMark};

impl Residual {
    /// The residual of these parts, whose facts are known.
    pub fn new(
        at: Position,
        unit1: Option<OpenUnit>,
        unit2: Option<OpenUnit>,
        part: TicketPart,
    ) -> Residual
        requires { AreKept unit1 unit2 part }
        ensures { result ≡ record { at = at; units = open_units unit1 unit2; part = part } }
    {
        Residual {
            at,
            unit1,
            unit2,
            part,
        }
    }

    /// The residual of these parts. None exactly where they make none: the second open unit without
    /// the first, or a part of an open unit or of the ticket part out of its range.
    pub fn checked(
        at: Position,
        unit1: Option<OpenUnit>,
        unit2: Option<OpenUnit>,
        part: TicketPart,
    ) -> Option<Residual>
        ensures made { IsSome result ↔ AreKept unit1 unit2 part }
        ensures parts { IfSome result (λ r. r ≡ record { at = at; units = open_units unit1 unit2; part = part }) }
    {
        if !are_kept(&unit1, &unit2, &part) {
            return None;
        }
        Some(Residual {
            at,
            unit1,
            unit2,
            part,
        })
    }

    /// What the type keeps of every residual.
    pub fn keeps(&self)
        ensures { IsResidual self.now }
    {
        let _part = &self.part;
    }
}

/// Whether open units of two places and a ticket part make a residual.
fn are_kept(first: &Option<OpenUnit>, second: &Option<OpenUnit>, part: &TicketPart) -> bool
    ensures { IsTrue result ↔ AreKept first.now second.now part.now }
{
    in_turn(first, second) && option_kept(first) && option_kept(second) && part_kept(part)
}

/// Whether the second place is taken only where the first one is.
fn in_turn(first: &Option<OpenUnit>, second: &Option<OpenUnit>) -> bool
    ensures { IsTrue result ↔ InTurn first.now second.now }
{
    first.is_some() || second.is_none()
}

fn option_kept(unit: &Option<OpenUnit>) -> bool
    ensures { IsTrue result ↔ IfSome unit.now UnitInRanges }
{
    match unit {
        Some(unit) => unit_kept(unit),
        None => true,
    }
}

/// Whether the fields of an open unit lie in their ranges, and its marks agree.
pub fn unit_kept(unit: &OpenUnit) -> bool
    ensures { IsTrue result ↔ UnitInRanges unit.now }
{
    unit.first_day >= 0
        && unit.first_day <= 99_000
        && may_be_set(unit.least)
        && may_be_set(unit.greatest)
        && may_be_set(unit.by)
        && unit.count >= 1
        && unit.count <= 3
        && unit.kinds <= 15
        && unit.partner <= 2
        && marks_agree(&unit.carrier, &unit.rule)
}

/// Whether a day that a rule sets lies in its range.
fn may_be_set(day: Option<i32>) -> bool
    ensures { IsTrue result ↔ IsStoredDay day }
{
    match day {
        Some(day) => day >= 0 && day <= 100_000,
        None => true,
    }
}

/// Whether there is a carrier, and the rule is mixed where the carriers are.
fn marks_agree(carrier: &CarrierMark, rule: &RuleMark) -> bool
    ensures { IsTrue result ↔ MarksAgree carrier.now rule.now }
{
    match carrier {
        CarrierMark::NotYet => false,
        CarrierMark::One(_) => true,
        CarrierMark::Mixed => matches!(rule, RuleMark::Mixed),
    }
}

/// Whether the fields of a ticket part lie in their ranges.
pub fn part_kept(part: &TicketPart) -> bool
    ensures { IsTrue result ↔ PartKept part.now }
{
    part.units <= 2 && part.ends <= 3
}
