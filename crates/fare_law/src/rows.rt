//! Rows of a case.
use crate::{Carrier, List, Place};

/// A line of a text with its number, counted from 1.
#[derive(Drop)]
pub struct TextLine {
    pub line: u32,
    pub bytes: List<u8>,
}

/// A place with its least connect time in minutes.
#[derive(Clone, Copy, PartialEq, Eq)]
pub struct PlaceRow {
    pub line: u32,
    pub place: Place,
    pub connect: u16,
}

/// A flight of a period: one dated flight for each day whose weekday is named.
#[derive(Clone, Copy, PartialEq, Eq)]
pub struct FlightRow {
    pub line: u32,
    pub carrier: Carrier,
    pub number: u16,
    pub from: Place,
    pub to: Place,
    /// The local minute of departure, and the place's offset from UTC in minutes.
    pub dep: u16,
    pub dep_offset: i16,
    /// The local minute of arrival, and its offset.
    pub arr: u16,
    pub arr_offset: i16,
    /// How many days after the departure's local day the arrival's is, -1 to 2.
    pub shift: i8,
    /// The first and the last local day of departure.
    pub first: i32,
    pub last: i32,
    /// Bit d - 1 is set where weekday d is named.
    pub days: u8,
}

/// Seats by class, of one day or of all days.
#[derive(Clone, Copy, PartialEq, Eq)]
pub struct SeatRow {
    pub line: u32,
    pub carrier: Carrier,
    pub number: u16,
    pub from: Place,
    /// None for the row of all days.
    pub day: Option<i32>,
    pub seats: [u8; 32],
}
