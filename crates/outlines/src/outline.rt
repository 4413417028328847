//! Outlines of components, the entries of a table of them, and outcomes.
use fare_law::{Carrier, FareKind, Place, Rule, Shared};
use flight_paths::Position;
use residual_keys::Next;

/// What a component from a position is to a unit and to a ticket.
#[derive(Clone, Copy)]
pub struct Outline {
    /// Where it leads: None where the journey is complete.
    pub after: Option<Position>,
    pub end: Place,
    /// The local days of departure of its first and its last flight.
    pub first: i32,
    pub last: i32,
    /// Its fare's carrier, rule number and kind.
    pub carrier: Carrier,
    pub number: u16,
    pub kind: FareKind,
    /// Whether its fare is filed from its end to its beginning.
    pub reverse: bool,
}

/// An outline with the least price of the components that have it, and with their rule.
#[derive(Drop)]
pub struct Entry {
    pub outline: Outline,
    pub rule: Shared<Rule>,
    pub price: u64,
}

/// What a component of a residual leaves, with its price.
#[derive(Clone, Copy)]
pub struct Outcome {
    pub next: Next,
    pub price: u64,
}
