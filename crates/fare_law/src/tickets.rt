//! Tickets, and what the rules read of their components.
use crate::{ArrayVec, Fare, FareKey, MOST_COMPONENTS, MOST_FLIGHTS_OF_A_COMPONENT, Place, Rule};

/// A fare with the flights that it pays for, and the label of its unit.
#[derive(Default, PartialEq, Eq, Debug, Drop)]
pub struct Component {
    /// Numbers of flights of the timetable.
    pub flights: ArrayVec<u32, MOST_FLIGHTS_OF_A_COMPONENT>,
    pub fare: FareKey,
    pub unit: u8,
}

/// Components in order.
#[derive(Default, PartialEq, Eq, Debug, Drop)]
pub struct Ticket {
    pub components: ArrayVec<Component, MOST_COMPONENTS>,
}

/// A ticket with its price for one passenger.
#[derive(PartialEq, Eq, Debug, Drop)]
pub struct Priced {
    pub price: u64,
    pub ticket: Ticket,
}

/// What the rules of units and of tickets read of a component.
#[derive(Debug, Drop)]
pub struct Piece {
    /// Where the component begins and ends.
    pub begin: Place,
    pub end: Place,
    pub fare: Fare,
    pub rule: Rule,
    /// Whether the fare is filed from the end to the beginning.
    pub reverse: bool,
    /// The local days of departure of the first and the last flight.
    pub first_day: i32,
    pub last_day: i32,
    /// The day of sale.
    pub sale: i32,
}
