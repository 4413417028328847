//! Moves of a search, and codes.
ghost use Rattle.std.specs.Prelude.{◌≡◌};

use crate::{ArrayVec, Basis, CODE_NUMBERS, Carrier, MOST_FLIGHTS_OF_A_COMPONENT};

/// The part of a component in its unit, numbered 0 to 3.
#[derive(Clone, Copy, Default, PartialEq, Eq)]
pub enum Role {
    #[default]
    Alone,
    Opens,
    GoesOn,
    Closes,
}

/// What a search chooses next: flights, a fare, and what the component is to its unit.
#[derive(Default, PartialEq, Eq, Drop)]
pub struct Move {
    /// Numbers of flights of the timetable.
    pub flights: ArrayVec<u32, MOST_FLIGHTS_OF_A_COMPONENT>,
    pub carrier: Carrier,
    pub basis: Basis,
    pub role: Role,
    /// The place of the unit among the open ones, 0 or 1.
    pub slot: u8,
}

/// The numbers by which tickets of equal price are ordered.
pub type Code = ArrayVec<u64, CODE_NUMBERS>;

impl Move {
    /// The same move.
    pub fn copied(&self) -> Move
        ensures { result ≡ self.now }
    {
        Move {
            flights: self.flights.copied(),
            carrier: self.carrier,
            basis: self.basis.copied(),
            role: self.role,
            slot: self.slot,
        }
    }
}
