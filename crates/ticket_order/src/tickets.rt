//! The ticket of moves.
ghost use Rattle.std.specs.Prelude.{◌≡◌, ℕ, ◌≤◌, List, length, slice_get, IfSome, IfNone};
ghost use Rattle.fare_law.specs.declared.names.Place.{Place};
ghost use Rattle.fare_law.specs.declared.tickets.Component.{Component};
ghost use Rattle.fare_law.specs.declared.tickets.Ticket.{Ticket};
ghost use Rattle.fare_law.specs.Lists.{Matched};
ghost use Rattle.ticket_order.specs.Tickets.{IsComponent, LeadFrom, TicketOfMoves, labels, market_of};

use crate::numbering::labels_for;
use fare_law::{ArrayVec, Component, FareKey, Flight, MOST_COMPONENTS, Move, Place, Role, Ticket};
use schedule_book::Schedule;

/// The ticket with these moves in which each fare is filed from its component's beginning to its
/// end, and where it closes a unit from the end to the beginning. None exactly where a move has no
/// flight, a flight isn't in the schedule, or no ticket has these moves; there is at most one.
pub fn ticket_of(moves: &[Move], schedule: &Schedule) -> Option<Ticket>
    ensures ticket { IfSome result (TicketOfMoves schedule.now.flights moves.now) }
    ensures only { IfSome result (λ t. (u : Ticket) → TicketOfMoves schedule.now.flights moves.now u → u ≡ t) }
    ensures none { IfNone result ((t : Ticket) → TicketOfMoves schedule.now.flights moves.now t → ⊥) }
{
    if moves.len() > MOST_COMPONENTS {
        return None;
    }
    let labels = labels_for(moves)?;
    let components = components_of(moves, labels.as_slice(), schedule.flights())?;
    Some(Ticket { components })
}

/// The components of moves in the units of these labels.
fn components_of(
    moves: &[Move],
    units: &[u8],
    flights: &[Flight],
) -> Option<ArrayVec<Component, MOST_COMPONENTS>>
    requires few { length moves.now ≤ MOST_COMPONENTS }
    requires each { length units.now ≡ length moves.now }
    ensures some { IfSome result (λ cs. Matched (IsComponent flights.now) moves.now cs × (labels cs ≡ units.now)) }
    ensures only { (cs : List Component) → Matched (IsComponent flights.now) moves.now cs → labels cs ≡ units.now → result ≡ Some cs }
{
    let mut components = ArrayVec::new();
    for i in 0..moves.len() {
        let component = component_of(&moves[i], units[i], flights)?;
        components.push(component);
    }
    Some(components)
}

/// The component of a move in the unit of a label.
fn component_of(m: &Move, unit: u8, flights: &[Flight]) -> Option<Component>
    ensures some { IfSome result (λ c. IsComponent flights.now m.now c × (c.unit ≡ unit)) }
    ensures only { (c : Component) → IsComponent flights.now m.now c → c.unit ≡ unit → result ≡ Some c }
{
    let (begin, end) = ends_of(m.flights.as_slice(), flights)?;
    let (from, to) = market_of(m.role, begin, end);
    Some(Component {
        flights: m.flights.copied(),
        fare: FareKey {
            carrier: m.carrier,
            from,
            to,
            basis: m.basis.copied(),
        },
        unit,
    })
}

/// Where a fare of this role is filed, over a component from one place to another.
fn market_of(role: Role, begin: Place, end: Place) -> (Place, Place)
    ensures { result ≡ market_of role begin end }
{
    match role {
        Role::Closes => (end, begin),
        Role::Alone | Role::Opens | Role::GoesOn => (begin, end),
    }
}

/// Where these flights begin and end.
fn ends_of(numbers: &[u32], flights: &[Flight]) -> Option<(Place, Place)>
    ensures some { IfSome result (λ ends. LeadFrom flights.now numbers.now ends.0 ends.1) }
    ensures only { (begin end : Place) → LeadFrom flights.now numbers.now begin end → result ≡ Some (begin, end) }
{
    let mut ends = None;
    for number in numbers {
        let flight = flight_at(flights, *number)?;
        ends = match ends {
            Some((begin, _)) => Some((begin, flight.to)),
            None => Some((flight.from, flight.to)),
        };
    }
    ends
}

/// The flight of a number.
fn flight_at(flights: &[Flight], number: u32) -> Option<Flight>
    ensures { result ≡ slice_get flights.now number }
{
    flights.get(number as usize).copied()
}
