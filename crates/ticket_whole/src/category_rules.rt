//! What a component meets in its unit by one category alone.
ghost use Rattle.std.specs.Prelude.{◌≡◌, ◌≢◌, ◌↔◌, ◌≤◌, length, IfSome, IsTrue};
ghost use Rattle.fare_law.specs.Days.{IsCalendarDay};
ghost use Rattle.fare_law.specs.Lists.{Each};
ghost use Rattle.fare_law.specs.RuleLimits.{IsRule};
ghost use Rattle.fare_law.specs.Units.{MaxStayHolds, MinStayHolds};
ghost use Rattle.fare_law.specs.declared.rules.UnitKind.TheVariants.{OneWay};
ghost use Rattle.ticket_whole.specs.Categories.{CategoryHolds, CategoryMeets};
ghost use Rattle.ticket_whole.specs.Known.{part_of, parts_of};
ghost use Rattle.ticket_whole.specs.Stretches as Stretches;

use crate::CategoryDemand;
use crate::component_flights::{ends_of, flights_of, row_of};
use crate::stretch::{Stretch, stretches_of, unit_of};
use crate::unit_rules::{greatest_stay_meets, is_one_way, least_stay_meets};
use crate::units::{UnitFacts, facts_of};
use fare_book::Book;
use fare_law::{Component, MOST_COMPONENTS, Rule};
use fare_rules::{advance_ok, season_ok};

/// Whether a component meets the demand of one category in its unit, which is made of those of at most
/// `MOST_COMPONENTS` components that have its label. One without a live fare or a known flight, or in a unit that has
/// no kind, meets each.
pub fn category_meets(
    demand: CategoryDemand,
    component: &Component,
    components: &[Component],
    book: &Book,
    sale: i32,
) -> bool
    requires few { length components.now ≤ MOST_COMPONENTS }
    requires sale { IsCalendarDay sale }
    ensures { IsTrue result ↔ IfSome (part_of book.now sale component.now) (CategoryMeets (parts_of book.now sale components.now) demand) }
{
    let stretches = stretches_of(components, book);
    let unit = unit_of(component.unit, stretches.as_slice());
    meets_among(demand, component, unit.as_slice(), book, sale)
}

/// Whether a component meets the demand, given the stretches of its unit.
fn meets_among(
    demand: CategoryDemand,
    component: &Component,
    unit: &[Stretch],
    book: &Book,
    sale: i32,
) -> bool
    requires days { Each (λ s. IsCalendarDay s.first_day) unit.now }
    requires sale { IsCalendarDay sale }
    ensures { IsTrue result ↔ IfSome (part_of book.now sale component.now) (λ part. IfSome (Stretches.facts_of unit.now) (λ facts. CategoryHolds sale part.piece.rule facts demand)) }
{
    let Some(row) = row_of(component, book) else {
        return true;
    };
    match ends_of(flights_of(component, book).as_slice()) {
        None => true,
        Some(_) => rule_meets(demand, &row.rule, unit, sale),
    }
}

/// Whether a rule meets the demand in a unit of these stretches.
fn rule_meets(demand: CategoryDemand, rule: &Rule, unit: &[Stretch], sale: i32) -> bool
    requires days { Each (λ s. IsCalendarDay s.first_day) unit.now }
    requires sale { IsCalendarDay sale }
    requires rule { IsRule rule.now }
    ensures { IsTrue result ↔ IfSome (Stretches.facts_of unit.now) (λ facts. CategoryHolds sale rule.now facts demand) }
{
    match facts_of(unit) {
        None => true,
        Some(facts) => category_holds(demand, rule, &facts, sale),
    }
}

/// Whether a rule meets the demand in a unit of this kind and these days.
fn category_holds(demand: CategoryDemand, rule: &Rule, facts: &UnitFacts, sale: i32) -> bool
    requires sale { IsCalendarDay sale }
    requires first { IsCalendarDay facts.now.first_day }
    requires rule { IsRule rule.now }
    ensures { IsTrue result ↔ CategoryHolds sale rule.now facts.now demand }
{
    match demand {
        CategoryDemand::Season => season_ok(rule, facts.first_day),
        CategoryDemand::Advance => advance_ok(rule, sale, facts.first_day),
        CategoryDemand::LeastStay => least_stay_holds(rule, facts),
        CategoryDemand::GreatestStay => greatest_stay_holds(rule, facts),
    }
}

/// Whether the stay meets category 6, unless the unit is a one way.
fn least_stay_holds(rule: &Rule, facts: &UnitFacts) -> bool
    requires { IsCalendarDay facts.now.first_day }
    ensures { IsTrue result ↔ (facts.now.kind ≢ OneWay → MinStayHolds rule.now facts.now.first_day facts.now.return_day) }
{
    is_one_way(facts.kind) || least_stay_meets(rule, facts.first_day, facts.return_day)
}

/// Whether the stay meets category 7, unless the unit is a one way.
fn greatest_stay_holds(rule: &Rule, facts: &UnitFacts) -> bool
    requires { IsCalendarDay facts.now.first_day }
    ensures { IsTrue result ↔ (facts.now.kind ≢ OneWay → MaxStayHolds rule.now facts.now.first_day facts.now.return_day) }
{
    is_one_way(facts.kind) || greatest_stay_meets(rule, facts.first_day, facts.return_day)
}
