//! The fares of an open unit together with that of one more component.
ghost use Rattle.std.specs.Prelude.{◌≡◌, ◌↔◌, true, IsTrue};
ghost use Rattle.fare_rules.specs.Demands.{AtMost, MayReturn, demand_of, has_kind};
ghost use Rattle.fare_rules.specs.Ranges.{DemandInRange};
ghost use Rattle.open_unit.specs.OpenUnits.{PartnerHolds, carriers_with, demand_with, rules_with};
ghost use Rattle.open_unit.specs.Ranges.{PieceInRanges, UnitInRanges};

use crate::marks::partners_hold;
use crate::{CarrierMark, Facts, OpenUnit, RuleMark};
use fare_law::UnitKind;
use fare_rules::UnitDemand;

/// What these fares demand together, and what they have in common.
#[derive(Clone, Copy)]
pub struct JoinedFares {
    pub demand: UnitDemand,
    pub carrier: CarrierMark,
    pub rule: RuleMark,
}

impl JoinedFares {
    /// The fares of the unit and of the component.
    pub fn of(unit: &OpenUnit, facts: &Facts<'_>) -> JoinedFares
        requires unit { UnitInRanges unit.now }
        requires facts { PieceInRanges facts.now }
        ensures demand { result.demand ≡ demand_with unit.now facts.now }
        ensures in_range { DemandInRange result.demand }
        ensures carrier { result.carrier ≡ carriers_with unit.now facts.now }
        ensures rule { result.rule ≡ rules_with unit.now facts.now }
    {
        let carrier = unit.carrier.with(facts.carrier);
        JoinedFares {
            demand: unit
                .demand()
                .meet(&UnitDemand::of(facts.rule, unit.first_day)),
            carrier,
            rule: unit.rule.with(carrier, facts.number),
        }
    }

    /// Whether they allow a unit of this kind, and have in common what they ask of one another.
    pub fn allow(&self, kind: UnitKind) -> bool
        ensures { IsTrue result ↔ ((has_kind self.now.demand.kinds kind ≡ true) × PartnerHolds self.now.demand.partner self.now.carrier self.now.rule) }
    {
        self.demand.kind_ok(kind) && partners_hold(self.demand.partner, self.carrier, self.rule)
    }
}

/// Whether the unit may be of this kind with a last component of its own demand, and its fares have in common what they ask
/// of one another: what their joint demand says, which needn't be made for it.
pub fn may_be(unit: &OpenUnit, last: &Facts<'_>, own: &UnitDemand, kind: UnitKind) -> bool
    requires { own.now ≡ demand_of last.now.rule unit.now.first_day }
    ensures { IsTrue result ↔ ((has_kind (demand_with unit.now last.now).kinds kind ≡ true) × PartnerHolds (demand_with unit.now last.now).partner (carriers_with unit.now last.now) (rules_with unit.now last.now)) }
{
    if !unit.demand().kind_ok(kind) {
        return false;
    }
    if !own.kind_ok(kind) {
        return false;
    }
    let carrier = unit.carrier.with(last.carrier);
    let rule = unit.rule.with(carrier, last.number);
    partners_hold(unit.partner.max(own.partner), carrier, rule)
}

/// Whether the unit may return and end on the days of a last component of its own demand.
pub fn may_return(unit: &OpenUnit, last: &Facts<'_>, own: &UnitDemand) -> bool
    requires { own.now ≡ demand_of last.now.rule unit.now.first_day }
    ensures { IsTrue result ↔ (MayReturn (demand_with unit.now last.now) last.now.first_day × AtMost (demand_with unit.now last.now).by last.now.last_day) }
{
    let so_far = unit.demand();
    if !returns(&so_far, last) {
        return false;
    }
    returns(own, last)
}

/// Whether a demand allows the days of a last component.
fn returns(demand: &UnitDemand, last: &Facts<'_>) -> bool
    ensures { IsTrue result ↔ (MayReturn demand.now last.now.first_day × AtMost demand.now.by last.now.last_day) }
{
    demand.return_ok(last.first_day) && demand.by_ok(last.last_day)
}
