//! Breaches.

/// A breach of a ticket: the number of the rule, 1 to 26, and the component, counted from 1. It is 0
/// where the ticket breaks the rule as a whole.
#[derive(Clone, Copy, PartialEq, Eq, Debug)]
pub struct Breach {
    pub rule: u8,
    pub component: u8,
}
