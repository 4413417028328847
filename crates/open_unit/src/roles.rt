//! The four roles that a component may have in a unit, by what a unit reads of it.
ghost use Rattle.std.specs.Prelude.{◌≡◌, ◌⊎◌, ◌↔◌, ◌+◌, ◌≤◌, IsTrue, IsSome, IfSome, IfNone};
ghost use Rattle.fare_law.specs.declared.rules.UnitKind.{UnitKind as Kind};
ghost use Rattle.fare_law.specs.Units.{Forward};
ghost use Rattle.open_unit.specs.OpenUnits.{MayAlone, MayOpen, MayGoOn, MayClose, opened, gone_on};
ghost use Rattle.open_unit.specs.Ranges.{PieceInRanges, UnitInRanges};

use crate::fares::fits;
use crate::joined::{JoinedFares, may_be, may_return};
use crate::kinds::kind_made;
use crate::{Facts, OpenUnit};
use fare_law::UnitKind;
use fare_rules::UnitDemand;

/// The kinds of a unit of more than two components: circles alone.
const CIRCLE: u8 = 8;

impl OpenUnit {
    /// Whether the component may be a unit of its own: a one way.
    pub fn alone_by(facts: &Facts<'_>) -> bool
        requires { PieceInRanges facts.now }
        ensures { IsTrue result ↔ MayAlone facts.now }
    {
        if facts.reverse || !fits(facts, UnitKind::OneWay, facts.first_day) {
            return false;
        }
        let demand = UnitDemand::of(facts.rule, facts.first_day);
        demand.kind_ok(UnitKind::OneWay) && demand.by_ok(facts.last_day)
    }

    /// The unit that the component opens, or none where it may not be the first of several.
    pub fn first_by(facts: &Facts<'_>) -> Option<OpenUnit>
        requires { PieceInRanges facts.now }
        ensures opens { IsSome result ↔ MayOpen facts.now }
        ensures unit { IfSome result (λ u. u ≡ opened facts.now) }
        ensures in_ranges { IfSome result UnitInRanges }
    {
        if facts.reverse || !fits(facts, UnitKind::RoundTrip, facts.first_day) {
            return None;
        }
        let unit = OpenUnit::opened_by(facts);
        (unit.kinds != 0).then_some(unit)
    }

    /// The unit after the component, or none where it may not go on in this unit: a circle.
    pub fn go_on_by(&self, facts: &Facts<'_>) -> Option<OpenUnit>
        requires unit { UnitInRanges self.now }
        requires facts { PieceInRanges facts.now }
        ensures goes_on { IsSome result ↔ MayGoOn self.now facts.now }
        ensures unit { IfSome result (λ u. u ≡ gone_on self.now facts.now) }
        ensures in_ranges { IfSome result UnitInRanges }
    {
        if !self.may_be_followed(facts) || !fits(facts, UnitKind::Circle, self.first_day) {
            return None;
        }
        let fares = JoinedFares::of(self, facts);
        if !fares.allow(UnitKind::Circle) {
            return None;
        }
        Some(self.followed_by(facts, &fares))
    }

    /// The kind of the unit that the component closes, or none where it may not close this unit.
    pub fn close_by(&self, facts: &Facts<'_>) -> Option<UnitKind>
        requires unit { UnitInRanges self.now }
        requires facts { PieceInRanges facts.now }
        ensures closes { IfSome result (λ kind. MayClose self.now facts.now kind) }
        ensures else_none { IfNone result ((kind : Kind) → MayClose self.now facts.now kind → ⊥) }
    {
        let kind = kind_made(self, facts)?;
        if !facts.reverse || !fits(facts, UnitKind::RoundTrip, self.first_day) {
            return None;
        }
        let own = UnitDemand::of(facts.rule, self.first_day);
        if !may_be(self, facts, &own, kind) || !may_return(self, facts, &own) {
            return None;
        }
        Some(kind)
    }

    // Whether the component goes forward from where the unit ends, and not as its last.
    fn may_be_followed(&self, facts: &Facts<'_>) -> bool
        ensures { IsTrue result ↔ (Forward facts.now × ((self.now.count ≡ 1) ⊎ (self.now.count ≡ 2)) × (facts.now.begin ≡ self.now.end)) }
    {
        !facts.reverse && (self.count == 1 || self.count == 2) && facts.begin.is(self.end)
    }

    // The unit with the component, whose fares together are these.
    fn followed_by(&self, facts: &Facts<'_>, fares: &JoinedFares) -> OpenUnit
        requires { self.now.count ≤ 2 }
        ensures { result ≡ record self.now {
          end = facts.now.end;
          count = self.now.count + 1;
          least = fares.now.demand.min_return;
          greatest = fares.now.demand.max_return;
          by = fares.now.demand.by;
          kinds = 8;
          partner = fares.now.demand.partner;
          carrier = fares.now.carrier;
          rule = fares.now.rule;
        } }
    {
        OpenUnit {
            end: facts.end,
            count: self.count + 1,
            least: fares.demand.min_return,
            greatest: fares.demand.max_return,
            by: fares.demand.by,
            kinds: CIRCLE,
            partner: fares.demand.partner,
            carrier: fares.carrier,
            rule: fares.rule,
            ..*self
        }
    }
}
