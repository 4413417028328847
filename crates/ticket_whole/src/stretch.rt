//! Stretches: what the rules of units read of the components of a ticket.
ghost use Rattle.std.specs.Prelude.{◌≡◌, ◌≤◌, ◌==◌, ℤ, length, map, option_map, filter, IfSome};
ghost use Rattle.fare_law.specs.Days.{IsCalendarDay};
ghost use Rattle.fare_law.specs.Lists.{Each};
ghost use Rattle.ticket_whole.specs.Known.{part_of, parts_of, ends_of};
ghost use Rattle.ticket_whole.specs.Stretches.{stretch_of};

use crate::component_flights::{ends_of, flights_of};
use fare_book::Book;
use fare_law::{ArrayVec, Carrier, Component, MOST_COMPONENTS, Place};

/// What the rules of units read of a component: where it begins and ends, whether its fare is filed
/// the other way, the local days of departure of its first and last flight, its fare's carrier and
/// rule number, and the label of its unit.
#[derive(Clone, Copy, Default)]
pub struct Stretch {
    pub begin: Place,
    pub end: Place,
    pub reverse: bool,
    pub first_day: i32,
    pub last_day: i32,
    pub carrier: Carrier,
    pub rule: u16,
    pub unit: u8,
}

/// The stretch of a component, where its fare is live and it has a known flight.
#[tactic(auto, using(crate::proofs::FlightEnds::first_day))]
pub fn stretch_of(component: &Component, book: &Book) -> Option<Stretch>
    ensures value { (sale : ℤ) → result ≡ option_map stretch_of (part_of book.now sale component.now) }
    ensures day { IfSome result (λ s. IsCalendarDay s.first_day) }
{
    let row = book.fare(&component.fare)?;
    let key = &row.fare.key;
    let (first, last) = ends_of(flights_of(component, book).as_slice())?;
    Some(Stretch {
        begin: first.from,
        end: last.to,
        reverse: key.from == last.to && key.to == first.from,
        first_day: first.day,
        last_day: last.day,
        carrier: key.carrier,
        rule: row.fare.rule,
        unit: component.unit,
    })
}

/// Whether a component goes against the direction of its fare's filing. None exactly where its fare
/// isn't live or it has no known flight.
pub fn is_reverse(component: &Component, book: &Book) -> Option<bool>
    ensures { (sale : ℤ) → result ≡ option_map (λ part. part.piece.reverse) (part_of book.now sale component.now) }
{
    let stretch = stretch_of(component, book)?;
    Some(stretch.reverse)
}

/// The stretches of at most `MOST_COMPONENTS` components.
pub fn stretches_of(components: &[Component], book: &Book) -> ArrayVec<Stretch, MOST_COMPONENTS>
    requires { length components.now ≤ MOST_COMPONENTS }
    ensures value { (sale : ℤ) → result ≡ map stretch_of (parts_of book.now sale components.now) }
    ensures days { Each (λ s. IsCalendarDay s.first_day) result }
    ensures few { length result ≤ MOST_COMPONENTS }
{
    let mut found = ArrayVec::new();
    for component in components {
        let Some(stretch) = stretch_of(component, book) else {
            continue;
        };
        found.push(stretch);
    }
    found
}

/// Those of at most `MOST_COMPONENTS` stretches that are of one unit.
pub fn unit_of(unit: u8, stretches: &[Stretch]) -> ArrayVec<Stretch, MOST_COMPONENTS>
    requires { length stretches.now ≤ MOST_COMPONENTS }
    ensures { result ≡ filter (λ s. s.unit == unit) stretches.now }
{
    let mut found = ArrayVec::new();
    for stretch in stretches {
        if stretch.unit != unit {
            continue;
        }
        found.push(*stretch);
    }
    found
}
