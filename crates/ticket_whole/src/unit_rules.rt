//! What a component meets in its unit.
ghost use Rattle.std.specs.Prelude.{◌≡◌, ◌≢◌, ◌↔◌, ◌≤◌, ◌==◌, ◌≤ℤ◌, ◌+ℤ◌, ℤ, pos, length, filter, All, Contains, IfSome, IsTrue};
ghost use Rattle.std.specs.Bool.{OnTrue};
ghost use Rattle.fare_law.specs.Days.{IsCalendarDay, first_sunday_after};
ghost use Rattle.fare_law.specs.Lists.{Each};
ghost use Rattle.fare_law.specs.RuleLimits.{IsRule};
ghost use Rattle.fare_law.specs.Units.{EndsBy, KindHolds, MaxStayHolds, MayStand, MinStayHolds};
ghost use Rattle.fare_law.specs.declared.rules.UnitKind.TheVariants.{OneWay};
ghost use Rattle.ticket_whole.specs.Breaches.{PartMeets};
ghost use Rattle.ticket_whole.specs.Known.{part_of, parts_of};
ghost use Rattle.ticket_whole.specs.Stretches.{FactsMeet, IsPartner, StretchesMeet};
ghost use Rattle.ticket_whole.specs.declared.demand.UnitDemand.TheVariants.{Shape};

use crate::UnitDemand;
use crate::component_flights::{ends_of, flights_of, row_of};
use crate::stretch::{Stretch, stretches_of, unit_of};
use crate::units::{UnitFacts, facts_of};
use fare_book::Book;
use fare_law::{Component, FareKind, MOST_COMPONENTS, MinStay, Partners, Rule, SheetRow, UnitKind};
use fare_rules::{advance_ok, season_ok, travel_ok};
use market_time::first_sunday_after;

/// Whether a component meets a demand in its unit, which is made of those of at most `MOST_COMPONENTS` components that
/// have its label. One without a live fare or a known flight meets each.
pub fn part_meets(
    demand: UnitDemand,
    component: &Component,
    components: &[Component],
    book: &Book,
    sale: i32,
) -> bool
    requires few { length components.now ≤ MOST_COMPONENTS }
    requires sale { IsCalendarDay sale }
    ensures { IsTrue result ↔ IfSome (part_of book.now sale component.now) (PartMeets (parts_of book.now sale components.now) demand) }
{
    let stretches = stretches_of(components, book);
    unit_meets(demand, component, stretches.as_slice(), book, sale)
}

/// Whether a component meets a demand in its unit, given the stretches of the ticket.
fn unit_meets(
    demand: UnitDemand,
    component: &Component,
    stretches: &[Stretch],
    book: &Book,
    sale: i32,
) -> bool
    requires few { length stretches.now ≤ MOST_COMPONENTS }
    requires days { Each (λ s. IsCalendarDay s.first_day) stretches.now }
    requires sale { IsCalendarDay sale }
    ensures { IsTrue result ↔ IfSome (part_of book.now sale component.now) (λ part. StretchesMeet sale (record { fare = part.piece.fare; rule = part.piece.rule }) (filter (λ s. s.unit == component.now.unit) stretches.now) demand) }
{
    let Some(row) = row_of(component, book) else {
        return true;
    };
    match ends_of(flights_of(component, book).as_slice()) {
        None => true,
        Some(_) => label_meets(demand, row, component.unit, stretches, sale),
    }
}

/// Whether a fare meets a demand in the unit of a label.
fn label_meets(
    demand: UnitDemand,
    row: &SheetRow,
    label: u8,
    stretches: &[Stretch],
    sale: i32,
) -> bool
    requires few { length stretches.now ≤ MOST_COMPONENTS }
    requires days { Each (λ s. IsCalendarDay s.first_day) stretches.now }
    requires sale { IsCalendarDay sale }
    requires rule { IsRule row.now.rule }
    ensures { IsTrue result ↔ StretchesMeet sale row.now (filter (λ s. s.unit == label) stretches.now) demand }
{
    let unit = unit_of(label, stretches);
    stretches_meet(demand, row, unit.as_slice(), sale)
}

/// Whether a fare meets a demand in a unit of these stretches.
fn stretches_meet(demand: UnitDemand, row: &SheetRow, unit: &[Stretch], sale: i32) -> bool
    requires days { Each (λ s. IsCalendarDay s.first_day) unit.now }
    requires sale { IsCalendarDay sale }
    requires rule { IsRule row.now.rule }
    ensures { IsTrue result ↔ StretchesMeet sale row.now unit.now demand }
{
    match facts_of(unit) {
        None => !is_shape(demand),
        Some(facts) => facts_meet(demand, row, unit, &facts, sale),
    }
}

fn is_shape(demand: UnitDemand) -> bool
    ensures { IsTrue result ↔ (demand ≡ Shape) }
{
    matches!(demand, UnitDemand::Shape)
}

/// Whether a fare meets a demand in a unit of this kind and these days.
fn facts_meet(
    demand: UnitDemand,
    row: &SheetRow,
    unit: &[Stretch],
    facts: &UnitFacts,
    sale: i32,
) -> bool
    requires sale { IsCalendarDay sale }
    requires first { IsCalendarDay facts.now.first_day }
    requires rule { IsRule row.now.rule }
    ensures { IsTrue result ↔ FactsMeet sale row.now unit.now facts.now demand }
{
    let rule = &row.rule;
    match demand {
        UnitDemand::Shape => true,
        UnitDemand::FareKind => may_stand(row.fare.kind, facts.kind),
        UnitDemand::FirstDay => {
            season_ok(rule, facts.first_day) && advance_ok(rule, sale, facts.first_day)
        }
        UnitDemand::TravelDates => {
            travel_ok(rule, facts.first_day) && ends_by(rule, facts.last_day)
        }
        UnitDemand::Stay => stay_meets(rule, facts),
        UnitDemand::Combination => { kind_allowed(rule, facts.kind) && partners_meet(row, unit) }
    }
}

/// Whether a fare of this kind may stand in such a unit.
fn may_stand(fare: FareKind, kind: UnitKind) -> bool
    ensures { IsTrue result ↔ MayStand fare kind }
{
    match fare {
        FareKind::O => true,
        FareKind::R => !is_one_way(kind),
        FareKind::S => is_one_way(kind),
    }
}

/// Whether the unit is a one way.
pub fn is_one_way(kind: UnitKind) -> bool
    ensures { IsTrue result ↔ (kind ≡ OneWay) }
{
    matches!(kind, UnitKind::OneWay)
}

/// Whether the unit's last day meets category 14.
fn ends_by(rule: &Rule, last_day: i32) -> bool
    ensures { IsTrue result ↔ EndsBy rule.now last_day }
{
    rule.cat14
        .as_ref()
        .is_none_or(|travel| travel.by.is_none_or(|by| last_day <= by))
}

/// Whether the stay meets categories 6 and 7, unless the unit is a one way.
fn stay_meets(rule: &Rule, facts: &UnitFacts) -> bool
    requires first { IsCalendarDay facts.now.first_day }
    requires rule { IsRule rule.now }
    ensures { IsTrue result ↔ (facts.now.kind ≢ OneWay → MinStayHolds rule.now facts.now.first_day facts.now.return_day × MaxStayHolds rule.now facts.now.first_day facts.now.return_day) }
{
    is_one_way(facts.kind)
        || (least_stay_meets(rule, facts.first_day, facts.return_day)
            && greatest_stay_meets(rule, facts.first_day, facts.return_day))
}

/// Whether the stay meets category 6.
pub fn least_stay_meets(rule: &Rule, first_day: i32, return_day: i32) -> bool
    requires { IsCalendarDay first_day }
    ensures { IsTrue result ↔ MinStayHolds rule.now first_day return_day }
{
    rule.cat6
        .is_none_or(|stay| is_long_enough(stay, first_day, return_day))
}

fn is_long_enough(stay: MinStay, first_day: i32, return_day: i32) -> bool
    requires { IsCalendarDay first_day }
    ensures { IsTrue result ↔ (((first_day +ℤ pos stay.days) ≤ℤ return_day) × OnTrue stay.sunday (first_sunday_after first_day ≤ℤ return_day)) }
{
    first_day + i32::from(stay.days) <= return_day
        && sunday_between(stay.sunday, first_day, return_day)
}

/// Whether the return is not before the first Sunday after the first day, where that is asked.
fn sunday_between(asked: bool, first_day: i32, return_day: i32) -> bool
    requires { IsCalendarDay first_day }
    ensures { IsTrue result ↔ OnTrue asked (first_sunday_after first_day ≤ℤ return_day) }
{
    !asked || is_sunday_by(first_day, return_day)
}

/// Whether the first Sunday after a day is not after another.
#[tactic(auto, unfolding(fare_law::specs::Days::first_sunday_after))]
fn is_sunday_by(first_day: i32, return_day: i32) -> bool
    requires { IsCalendarDay first_day }
    ensures { IsTrue result ↔ (first_sunday_after first_day ≤ℤ return_day) }
{
    first_sunday_after(first_day) <= return_day
}

/// Whether the stay meets category 7.
pub fn greatest_stay_meets(rule: &Rule, first_day: i32, return_day: i32) -> bool
    requires { IsCalendarDay first_day }
    ensures { IsTrue result ↔ MaxStayHolds rule.now first_day return_day }
{
    rule.cat7
        .is_none_or(|days| return_day <= first_day + i32::from(days))
}

/// Whether category 10 lists the unit's kind.
fn kind_allowed(rule: &Rule, kind: UnitKind) -> bool
    ensures { IsTrue result ↔ KindHolds rule.now kind }
{
    rule.cat10
        .as_ref()
        .is_none_or(|combine| lists_kind(combine.kinds.as_slice(), kind))
}

fn lists_kind(kinds: &[UnitKind], kind: UnitKind) -> bool
    ensures { IsTrue result ↔ Contains kinds.now kind }
{
    kinds.contains(&kind)
}

/// Whether all fares of the unit are partners of this one by its category 10.
fn partners_meet(row: &SheetRow, unit: &[Stretch]) -> bool
    ensures { IsTrue result ↔ IfSome row.now.rule.cat10 (λ c. All (IsPartner c.partners row.now) unit.now) }
{
    match &row.rule.cat10 {
        None => true,
        Some(combine) => unit
            .iter()
            .all(|stretch| is_partner(combine.partners, row, stretch)),
    }
}

fn is_partner(partners: Partners, row: &SheetRow, stretch: &Stretch) -> bool
    ensures { IsTrue result ↔ IsPartner partners row.now stretch.now }
{
    match partners {
        Partners::Any => true,
        Partners::SameCarrier => stretch.carrier.is(row.fare.key.carrier),
        Partners::SameRule => {
            stretch.carrier.is(row.fare.key.carrier) && stretch.rule == row.fare.rule
        }
    }
}
