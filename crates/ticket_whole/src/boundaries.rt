//! Labels of units along a ticket.
ghost use Rattle.std.specs.Prelude.{◌≡◌, ◌↔◌, ◌≤◌, length, map, true, IsTrue};
ghost use Rattle.fare_law.specs.Lawful.{AtMostTwoStraddle, comes_in};
ghost use Rattle.ticket_whole.specs.Breaches as Breaches;
ghost use Rattle.ticket_whole.specs.Breaches.{LabelStands};
ghost use Rattle.ticket_whole.specs.Boundaries.{AtMostTwo};

use fare_law::{ArrayVec, Component, MOST_COMPONENTS};

/// The labels of at most `MOST_COMPONENTS` components.
pub fn labels_of(components: &[Component]) -> ArrayVec<u8, MOST_COMPONENTS>
    requires { length components.now ≤ MOST_COMPONENTS }
    ensures { result ≡ map (λ c. c.unit) components.now }
{
    let mut labels = ArrayVec::new();
    for component in components {
        labels.push(component.unit);
    }
    labels
}

/// Whether a label is one of those of the components before it, or one more than the greatest of them.
pub fn label_stands(before: &[Component], label: u8) -> bool
    ensures { IsTrue result ↔ LabelStands (map (λ c. c.unit) before.now) label }
{
    has_label(before, label) || u16::from(label) == u16::from(greatest(before)) + 1
}

/// Whether a component is of this label.
fn has_label(components: &[Component], label: u8) -> bool
    ensures { IsTrue result ↔ (comes_in label (map (λ c. c.unit) components.now) ≡ true) }
{
    components.iter().any(|component| component.unit == label)
}

/// The greatest label of these components, 0 where there is none.
fn greatest(components: &[Component]) -> u8
    ensures { result ≡ Breaches.greatest (map (λ c. c.unit) components.now) }
{
    let mut top = 0;
    for component in components {
        top = top.max(component.unit);
    }
    top
}

/// Whether at most two labels stand on both sides of each boundary.
pub fn few_straddle(labels: &[u8]) -> bool
    ensures { IsTrue result ↔ AtMostTwoStraddle labels.now }
{
    for at in 0..labels.len() {
        let (before, after) = labels.split_at(at);
        if !few_between(before, after) {
            return false;
        }
    }
    true
}

/// Whether at most two labels stand on both sides of a boundary.
fn few_between(before: &[u8], after: &[u8]) -> bool
    ensures { IsTrue result ↔ AtMostTwo before.now after.now }
{
    let mut found: ArrayVec<u8, 2> = ArrayVec::new();
    for label in before {
        if !is_among(*label, after) || is_among(*label, found.as_slice()) {
            continue;
        }
        if found.is_full() {
            return false;
        }
        found.push(*label);
    }
    true
}

/// Whether a label is one of these.
fn is_among(label: u8, labels: &[u8]) -> bool
    ensures { IsTrue result ↔ (comes_in label labels.now ≡ true) }
{
    labels.iter().any(|other| label == *other)
}
