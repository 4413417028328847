//! The seats of flights by booking class: rows by flight number, origin and day, or for all days.
//! `Seats` finds a flight's seats, tells which classes have seats for a party, and takes and drops
//! single rows.
#![tactic(auto)]

mod faults;
mod keys;
mod laws;
mod row_name;
mod seats;

pub use faults::{SeatFault, SeatPut};
pub use laws::{live_rows_seat_flights, rows_begin_a_book};
pub use seats::Seats;
