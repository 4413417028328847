//! Worked cases: what the definitions of the law say of tickets, units, days and prices that were
//! worked out by hand. A wrong sentence in a definition shows here.
//! Nothing stands on this crate.
#![tactic(auto)]

mod categories;
mod ranges;
mod worked;

pub use categories::{
    advance_purchase, combinations, connections, departure_times, ends_on_ends, listed_flights,
    longest_stays, seasons, travel_dates,
};
pub use ranges::{limits_of_books, limits_of_rules};
pub use worked::{
    circle, days, inner_unit, labels, one_way, open_jaw, order, prices, requests, round_trip, units,
};
