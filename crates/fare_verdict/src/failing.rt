//! By which categories a component fails a demand.
ghost use Rattle.std.specs.Prelude.{◌≡◌, ◌⊎◌, ◌↔◌, ◌<◌, ◌≤◌, suc, length, true, map, IsTrue};
ghost use Rattle.fare_law.specs.Limits.{IsRequest};
ghost use Rattle.fare_law.specs.Lawful.{comes_in};
ghost use Rattle.ticket_whole.specs.Breaches.{FirstBroken};
ghost use Rattle.ticket_whole.specs.declared.demand.Demand.TheVariants.{Labels};
ghost use Rattle.fare_verdict.specs.Findings as Findings;
ghost use Rattle.fare_verdict.specs.Findings.{Fails, FailsInUnit};
ghost use Rattle.fare_verdict.specs.Told.{AreCategories};

use fare_book::Book;
use fare_law::{ArrayVec, Component, MOST_COMPONENTS, Request, Ticket};
use ticket_whole::{
    CategoryDemand, ComponentDemand, Demand, UnitDemand, broken_at, category_meets,
    component_meets, part_meets,
};

/// The categories by which a component of the ticket, which stands after these, fails a demand, 0 for none.
pub fn failing(
    demand: Demand,
    before: &[Component],
    component: &Component,
    ticket: &Ticket,
    book: &Book,
    request: &Request,
) -> ArrayVec<u8, 2>
    requires request { IsRequest request.now }
    requires few { length before.now < MOST_COMPONENTS }
    ensures { AreCategories (λ k. Fails book.now request.now ticket.now demand k before.now component.now) result }
{
    match demand {
        Demand::OfComponent(demand) => one_failing(
            component_meets(demand, component, book, request.party),
            component_category(demand),
        ),
        Demand::Labels => one_failing(!is_first_wrong(before.len(), ticket, book, request), 0),
        Demand::OfUnit(demand) => {
            failing_in_unit(demand, before, component, ticket, book, request)
        }
        _ => ArrayVec::new(),
    }
}

/// The category that a demand on a component reads, 0 for none.
fn component_category(demand: ComponentDemand) -> u8
    ensures { result ≡ Findings.component_category demand }
{
    match demand {
        ComponentDemand::DayTime => 2,
        ComponentDemand::Flights => 4,
        ComponentDemand::Stopovers => 8,
        ComponentDemand::Transfers => 9,
        _ => 0,
    }
}

/// Whether the component behind so many is the first whose label doesn't stand.
fn is_first_wrong(count: usize, ticket: &Ticket, book: &Book, request: &Request) -> bool
    requires request { IsRequest request.now }
    requires few { count < MOST_COMPONENTS }
    ensures { IsTrue result ↔ FirstBroken book.now request.now ticket.now Labels (suc count) }
{
    match broken_at(Demand::Labels, ticket, book, request) {
        None => false,
        Some(number) => number as usize == count + 1,
    }
}

/// The categories by which the component fails a demand on its unit.
fn failing_in_unit(
    demand: UnitDemand,
    before: &[Component],
    component: &Component,
    ticket: &Ticket,
    book: &Book,
    request: &Request,
) -> ArrayVec<u8, 2>
    requires request { IsRequest request.now }
    ensures { AreCategories (λ k. FailsInUnit book.now request.now ticket.now demand k before.now component.now) result }
{
    let components = ticket.components.as_slice();
    let sale = request.sale;
    let meets = part_meets(demand, component, components, book, sale);
    match demand {
        UnitDemand::Shape => one_failing(meets || has_label(before, component.unit), 0),
        UnitDemand::FareKind => one_failing(meets, 0),
        UnitDemand::FirstDay => two_failing(
            category_meets(CategoryDemand::Season, component, components, book, sale),
            3,
            category_meets(CategoryDemand::Advance, component, components, book, sale),
            5,
        ),
        UnitDemand::TravelDates => one_failing(meets, 14),
        UnitDemand::Stay => two_failing(
            category_meets(CategoryDemand::LeastStay, component, components, book, sale),
            6,
            category_meets(
                CategoryDemand::GreatestStay,
                component,
                components,
                book,
                sale,
            ),
            7,
        ),
        UnitDemand::Combination => one_failing(meets, 10),
    }
}

/// Whether a component among these has the label.
fn has_label(components: &[Component], label: u8) -> bool
    ensures { IsTrue result ↔ (comes_in label (map (λ c. c.unit) components.now) ≡ true) }
{
    components.iter().any(|component| component.unit == label)
}

/// The category, unless it is met.
fn one_failing(met: bool, category: u8) -> ArrayVec<u8, 2>
    ensures { AreCategories (λ k. (k ≡ category) × (IsTrue met → ⊥)) result }
{
    let mut found = ArrayVec::new();
    if !met {
        found.push(category);
    }
    found
}

/// Those of two categories that aren't met.
fn two_failing(one_met: bool, one: u8, other_met: bool, other: u8) -> ArrayVec<u8, 2>
    requires { one < other }
    ensures { AreCategories (λ k. ((k ≡ one) × (IsTrue one_met → ⊥)) ⊎ ((k ≡ other) × (IsTrue other_met → ⊥))) result }
{
    let mut found = ArrayVec::new();
    if !one_met {
        found.push(one);
    }
    if !other_met {
        found.push(other);
    }
    found
}
