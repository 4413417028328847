//! What the fares on a ticket ask of each other.
ghost use Rattle.std.specs.Prelude.{◌≡◌, ◌↔◌, ◌≤◌, ℤ, length, map, option_map, All, IsTrue};
ghost use Rattle.fare_law.specs.Lawful.{EndOnEndHolds};
ghost use Rattle.fare_law.specs.Lists.{Each};
ghost use Rattle.ticket_whole.specs.Known.{part_of, parts_of};
ghost use Rattle.ticket_whole.specs.FaresOn.{Combines, fare_on};

use crate::component_flights::row_of;
use crate::known::has_known_flight;
use fare_book::Book;
use fare_law::{ArrayVec, Carrier, Component, EndOnEnd, MOST_COMPONENTS};

/// A fare on a ticket: its carrier, the label of its unit, and what its category 10 asks of the
/// ticket.
#[derive(Clone, Copy, Default)]
pub struct FareOn {
    pub carrier: Carrier,
    pub unit: u8,
    pub asks: Option<EndOnEnd>,
}

/// Whether the fares of at most `MOST_COMPONENTS` components are as each asks by category 10, end on end.
pub fn end_on_end_meets(components: &[Component], book: &Book) -> bool
    requires { length components.now ≤ MOST_COMPONENTS }
    ensures { (sale : ℤ) → IsTrue result ↔ Each (λ part. EndOnEndHolds (parts_of book.now sale components.now) part.piece) (parts_of book.now sale components.now) }
{
    let fares = fares_on(components, book);
    all_combine(fares.as_slice())
}

/// The fares of at most `MOST_COMPONENTS` components: of those whose fare is live and that have a known flight.
fn fares_on(components: &[Component], book: &Book) -> ArrayVec<FareOn, MOST_COMPONENTS>
    requires { length components.now ≤ MOST_COMPONENTS }
    ensures { (sale : ℤ) → result ≡ map fare_on (parts_of book.now sale components.now) }
{
    let mut found = ArrayVec::new();
    for component in components {
        let Some(fare) = fare_on(component, book) else {
            continue;
        };
        found.push(fare);
    }
    found
}

/// The fare of a component, where it is live and there is a known flight.
fn fare_on(component: &Component, book: &Book) -> Option<FareOn>
    ensures { (sale : ℤ) → result ≡ option_map fare_on (part_of book.now sale component.now) }
{
    let row = row_of(component, book)?;
    if !has_known_flight(component, book) {
        return None;
    }
    Some(FareOn {
        carrier: row.fare.key.carrier,
        unit: component.unit,
        asks: row.rule.cat10.as_ref().map(|combine| combine.end_on_end),
    })
}

/// Whether all fares are as each asks.
fn all_combine(fares: &[FareOn]) -> bool
    ensures { IsTrue result ↔ All (Combines fares.now) fares.now }
{
    fares.iter().all(|fare| combines(fares, fare))
}

/// Whether all fares are as this one asks.
fn combines(fares: &[FareOn], fare: &FareOn) -> bool
    ensures { IsTrue result ↔ Combines fares.now fare.now }
{
    match fare.asks {
        None | Some(EndOnEnd::Free) => true,
        Some(EndOnEnd::SameCarrier) => all_of(fares, fare.carrier),
        Some(EndOnEnd::Never) => all_in_first_unit(fares),
    }
}

/// Whether all fares are of a carrier.
fn all_of(fares: &[FareOn], carrier: Carrier) -> bool
    ensures { IsTrue result ↔ All (λ f. f.carrier ≡ carrier) fares.now }
{
    fares.iter().all(|fare| fare.carrier.is(carrier))
}

/// Whether all fares are of the first unit.
fn all_in_first_unit(fares: &[FareOn]) -> bool
    ensures { IsTrue result ↔ All (λ f. f.unit ≡ 1) fares.now }
{
    fares.iter().all(|fare| fare.unit == 1)
}
