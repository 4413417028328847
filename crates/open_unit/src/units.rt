//! Open units.
ghost use Rattle.std.specs.Prelude.{◌≡◌};
ghost use Rattle.open_unit.specs.OpenUnits as OpenUnits;
ghost use Rattle.open_unit.specs.Ranges.{PieceInRanges, UnitInRanges};

use crate::{CarrierMark, Facts, RuleMark};
use fare_law::Place;
use fare_rules::UnitDemand;

/// What is kept of a unit that is open. Ordered field by field, absent before present.
#[derive(Clone, Copy, PartialEq, Eq, PartialOrd, Ord, Debug)]
pub struct OpenUnit {
    /// Where its first component begins and its last one so far ends.
    pub origin: Place,
    pub end: Place,
    /// Components so far, 1 to 3.
    pub count: u8,
    /// The local day of departure of its first flight, 0 to 99,000.
    pub first_day: i32,
    /// The least and the greatest day of return that its rules allow.
    pub least: Option<i32>,
    pub greatest: Option<i32>,
    /// The last day on which its last flight may depart.
    pub by: Option<i32>,
    /// The kinds that it may still become: one way 1, round trip 2, open jaw 4, circle 8, added.
    pub kinds: u8,
    /// What its fares ask of their partners: 0 nothing, 1 the same carrier, 2 the same rule.
    pub partner: u8,
    /// Never `NotYet`.
    pub carrier: CarrierMark,
    /// Mixed where the carrier is mixed.
    pub rule: RuleMark,
}

/// All kinds but one way.
const SEVERAL_COMPONENTS: u8 = 14;

impl OpenUnit {
    /// The unit that this component opens.
    pub(crate) fn opened_by(facts: &Facts<'_>) -> OpenUnit
        requires { PieceInRanges facts.now }
        ensures unit { result ≡ OpenUnits.opened facts.now }
        ensures in_ranges { UnitInRanges result }
    {
        let demand = UnitDemand::of(facts.rule, facts.first_day);
        OpenUnit {
            origin: facts.begin,
            end: facts.end,
            count: 1,
            first_day: facts.first_day,
            least: demand.min_return,
            greatest: demand.max_return,
            by: demand.by,
            kinds: demand.kinds & SEVERAL_COMPONENTS,
            partner: demand.partner,
            carrier: CarrierMark::One(facts.carrier),
            rule: RuleMark::One(facts.number),
        }
    }

    /// What its fares ask of it so far.
    pub(crate) fn demand(&self) -> UnitDemand
        ensures { result ≡ OpenUnits.demand_so_far self.now }
    {
        UnitDemand {
            min_return: self.least,
            max_return: self.greatest,
            by: self.by,
            kinds: self.kinds,
            partner: self.partner,
        }
    }
}
