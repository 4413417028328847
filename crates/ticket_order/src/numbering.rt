//! The labels that moves give the units of their ticket.
ghost use Rattle.std.specs.Prelude.{◌≡◌, ◌↔◌, ℕ, ◌≤◌, ◌<◌, List, [], length, take, slice_index_or, count_by, true, false, IfSome, IsTrue};
ghost use Rattle.fare_law.specs.Lawful.{Numbered};
ghost use Rattle.fare_law.specs.Moves.{role_of, slot_number};
ghost use Rattle.ticket_order.specs.Tickets.{AreLabels, begins, stays_open};

use crate::roles::{is_numbered, role_of, slot_number};
use fare_law::{ArrayVec, MOST_COMPONENTS, Move, Role};

/// The most labels of a ticket: one for each component, and 0, which none has.
const LABELS: usize = MOST_COMPONENTS + 1;

/// The labels of a ticket with these moves, where there is one.
pub fn labels_for(moves: &[Move]) -> Option<ArrayVec<u8, MOST_COMPONENTS>>
    requires { length moves.now ≤ MOST_COMPONENTS }
    ensures right { IfSome result (λ ls. Numbered 0 ls × AreLabels [] ls moves.now) }
    ensures only { (ls : List ℕ) → Numbered 0 ls → AreLabels [] ls moves.now → result ≡ Some ls }
{
    let labels = read_labels(moves)?;
    if is_numbered(labels.as_slice()) && are_labels(labels.as_slice(), moves) {
        Some(labels)
    } else {
        None
    }
}

/// The only labels that these moves may give: the next number where a unit begins, else the label
/// in the slot among the open ones.
fn read_labels(moves: &[Move]) -> Option<ArrayVec<u8, MOST_COMPONENTS>>
    requires { length moves.now ≤ MOST_COMPONENTS }
    ensures { (ls : List ℕ) → Numbered 0 ls → AreLabels [] ls moves.now → result ≡ Some ls }
{
    let mut opened = [false; LABELS];
    let mut count = 0;
    let mut labels = ArrayVec::new();
    for m in moves {
        let label = if begins(m.role) {
            count += 1;
            count
        } else {
            open_label(&opened, m.slot)?
        };
        opened[usize::from(label)] = stays_open(m.role);
        labels.push(label);
    }
    Some(labels)
}

/// Whether a component in this role begins a unit.
pub fn begins(role: Role) -> bool
    ensures { result ≡ begins role }
{
    matches!(role, Role::Alone | Role::Opens)
}

/// Whether the unit stays open after a role.
fn stays_open(role: Role) -> bool
    ensures { result ≡ stays_open role }
{
    matches!(role, Role::Opens | Role::GoesOn)
}

/// The open label with this many smaller ones.
fn open_label(opened: &[bool; LABELS], slot: u8) -> Option<u8>
    ensures only { (l : ℕ) → slice_index_or opened.now l false ≡ true → count_by (λ b. b) (take l opened.now) ≡ slot → result ≡ Some l }
    ensures small { IfSome result (λ label. label < LABELS) }
{
    let mut left = slot;
    for label in 0..LABELS as u8 {
        if opened[usize::from(label)] {
            if left == 0 {
                return Some(label);
            }
            left -= 1;
        }
    }
    None
}

/// Whether these labels give the moves their roles and slots.
fn are_labels(labels: &[u8], moves: &[Move]) -> bool
    ensures { IsTrue result ↔ AreLabels [] labels.now moves.now }
{
    if labels.len() != moves.len() {
        return false;
    }
    for i in 0..moves.len() {
        if !is_label(labels[i], &moves[i], &labels[..i], &labels[i + 1..]) {
            return false;
        }
    }
    true
}

/// Whether a label between these gives a move its role and slot.
fn is_label(label: u8, m: &Move, before: &[u8], after: &[u8]) -> bool
    ensures { IsTrue result ↔ ((m.now.role ≡ role_of before.now label after.now) × (m.now.slot ≡ slot_number before.now label after.now)) }
{
    same_role(m.role, role_of(before, label, after)) && m.slot == slot_number(before, label, after)
}

/// Whether two roles are one.
fn same_role(a: Role, b: Role) -> bool
    ensures { IsTrue result ↔ (a ≡ b) }
{
    a == b
}
