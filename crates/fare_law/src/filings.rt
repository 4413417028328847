//! Filings: what changes the fares, rules and seats of a book.
use crate::{Carrier, Fare, FareKey, List, Place, Rule, Shared};

/// What names a seat row: a flight number and, for a dated row, its day.
#[derive(Clone, Copy, PartialEq, Eq)]
pub struct SeatKey {
    pub carrier: Carrier,
    pub number: u16,
    pub from: Place,
    /// None for the row of all days.
    pub day: Option<i32>,
}

/// One change.
#[derive(Drop)]
pub enum Action {
    PutFare(Fare),
    DropFare(FareKey),
    PutRule(Carrier, u16, Shared<Rule>),
    DropRule(Carrier, u16),
    /// At most 9 seats in each class, and 0 from the 27th place on.
    PutSeats(SeatKey, [u8; 32]),
    DropSeats(SeatKey),
}

/// Changes that are accepted or refused as one.
#[derive(Drop)]
pub struct Filing {
    pub actions: List<Action>,
}

/// Why a book refuses an action; of several reasons the first that is listed here.
#[derive(Clone, Copy, PartialEq, Eq, Debug)]
pub enum BookWhy {
    /// A fare from a place to itself.
    SamePlace = 1,
    /// A fare of kind R with an odd amount.
    OddRound = 2,
    /// A fare on a rule that its carrier doesn't have, or a drop of a rule that isn't there.
    NoRule = 3,
    /// A drop of a rule that a live fare names.
    RuleInUse = 4,
    /// A drop of a fare that isn't there.
    NoFare = 5,
    /// A new fare, rule or seat row beside as many as a book may have; at action 0, one filing more than a book may have.
    Limit = 6,
    /// A drop of a seat row that isn't there.
    NoSeats = 7,
}

/// The first action with a fault, counted from 1, and its reason.
#[derive(Clone, Copy, PartialEq, Eq, Debug)]
pub struct Refused {
    pub action: u32,
    pub why: BookWhy,
}
