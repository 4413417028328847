//! The dated flights of a timetable: numbered by departure, found by origin and by time, and the
//! least connect times of its places.
#![tactic(auto)]

mod dated;
mod departures;
mod expansion;
mod faults;
mod gathering;
mod laws;
mod numbering;
mod parts;
mod places;
mod row_days;
mod row_faults;
mod schedule;
mod spans;
mod times;

pub use faults::SchedFault;
pub use laws::{one_fault_of_rows, one_list_of_flights, ordered_flights_ascend};
pub use schedule::Schedule;
