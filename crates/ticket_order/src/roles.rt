//! The moves of a ticket: what each component is to its unit.
ghost use Rattle.std.specs.Prelude.{◌≡◌, ◌↔◌, ◌≤◌, ◌<◌, List, length, IfSome, IsSome, IsTrue};
ghost use Rattle.fare_law.specs.Lawful.{Numbered, comes_in};
ghost use Rattle.fare_law.specs.Moves.{move_of, moves_of, role_of, slot_number};
ghost use Rattle.ticket_order.specs.Tickets.{labels};

use fare_law::{ArrayVec, Component, MOST_COMPONENTS, Move, Role, Ticket};

/// The moves of a ticket: for each component its flights, carrier and basis, its role in its unit,
/// and the unit's slot. None where the labels aren't numbered from 1 by first appearance.
pub fn moves_of(ticket: &Ticket) -> Option<ArrayVec<Move, MOST_COMPONENTS>>
    ensures moves { IfSome result (λ moves. moves ≡ moves_of ticket.now) }
    ensures numbered { IsSome result ↔ Numbered 0 (labels ticket.now.components) }
{
    let components = ticket.components.as_slice();
    let units = labels_of(components);
    let units = units.as_slice();
    if !is_numbered(units) {
        return None;
    }
    let mut moves = ArrayVec::new();
    for i in 0..components.len() {
        moves.push(move_of(&units[..i], &components[i], &units[i + 1..]));
    }
    Some(moves)
}

/// The labels of at most `MOST_COMPONENTS` components.
fn labels_of(components: &[Component]) -> ArrayVec<u8, MOST_COMPONENTS>
    requires { length components.now ≤ MOST_COMPONENTS }
    ensures { result ≡ labels components.now }
{
    let mut labels = ArrayVec::new();
    for component in components {
        labels.push(component.unit);
    }
    labels
}

/// Whether each label is one of those before it, or one more than the greatest of them.
pub fn is_numbered(labels: &[u8]) -> bool
    ensures { IsTrue result ↔ Numbered 0 labels.now }
{
    let mut count = 0;
    for label in labels {
        if *label == 0 {
            return false;
        }
        if count < *label {
            count += 1;
            if count < *label {
                return false;
            }
        }
    }
    true
}

/// The move of a component between these labels.
fn move_of(before: &[u8], component: &Component, after: &[u8]) -> Move
    ensures { result ≡ move_of before.now component.now after.now }
{
    Move {
        flights: component.flights.copied(),
        carrier: component.fare.carrier,
        basis: component.fare.basis.copied(),
        role: role_of(before, component.unit, after),
        slot: slot_number(before, component.unit, after),
    }
}

/// The role of a component of this unit between these labels.
pub fn role_of(before: &[u8], unit: u8, after: &[u8]) -> Role
    ensures { result ≡ role_of before.now unit after.now }
{
    match (comes_in(unit, before), comes_in(unit, after)) {
        (false, false) => Role::Alone,
        (false, true) => Role::Opens,
        (true, true) => Role::GoesOn,
        (true, false) => Role::Closes,
    }
}

/// How many units with a smaller label have a component before and one after, or 0 for a unit that
/// has none before.
pub fn slot_number(before: &[u8], unit: u8, after: &[u8]) -> u8
    ensures { result ≡ slot_number before.now unit after.now }
{
    if !comes_in(unit, before) {
        return 0;
    }
    let mut slot = 0;
    for smaller in 1..unit {
        if comes_in(smaller, before) && comes_in(smaller, after) {
            slot += 1;
        }
    }
    slot
}

/// Whether a label is among these.
fn comes_in(unit: u8, labels: &[u8]) -> bool
    ensures { result ≡ comes_in unit labels.now }
{
    labels.contains(&unit)
}
