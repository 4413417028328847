//! Names of the trade as text, both ways: places, carriers, fare bases and booking classes. With
//! them stand the texts of a seat row's day and of its seats. The readers of rows and of JSON and
//! the writers of JSON all stand on these calls.
#![tactic(auto)]

mod names;
mod seats;
mod texts;

pub use names::{basis_of, carrier_of, class_of, place_of};
pub use seats::{seat_day_of, seats_of};
pub use texts::{ascii_text, basis_text, carrier_text, class_text, names_read_again, place_text};
