//! What lines of a ticket say.
use fare_law::{Carrier, FareKey, Place};

/// What names a dated flight.
#[derive(Clone, Copy)]
pub struct FlightName {
    pub carrier: Carrier,
    pub number: u16,
    /// The local day of departure.
    pub day: i32,
    pub from: Place,
}

/// What a line of a ticket says.
#[derive(Drop)]
pub enum TicketLine {
    /// A component of the unit with this label, on this fare.
    Component { unit: u8, fare: FareKey },
    /// A flight of the component before.
    Flight { name: FlightName },
}
