//! Tables of outlines by numbers: outlines with their rules, each by a number; tables merged, each outline once at its least
//! price; the tables of flights that were made so far.
#![tactic(auto)]

mod flight_tables;
mod merging;
mod outline_numbers;
mod outline_places;

pub use flight_tables::FlightTables;
pub use merging::Merging;
pub use outline_numbers::{OutlineNumbers, Priced};
