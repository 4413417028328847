//! What a fare's rule asks, a category a file: days and times of a departure (category 2) and of a unit (seasons in 3, advance purchase
//! in 5, travel dates in 14); which flights a component may use (4), where it may stop over (8) and change planes (9), and what stopovers
//! (8) and flights (12) cost beside its share of the fare; and what a rule demands of its unit: days of return (6, 7), a last day (14),
//! kinds and partners (10). Each test and each sum is exactly the law's, and no call takes memory. Two demands meet in one that a unit
//! meets exactly where it meets both, so the layer above has one demand for all fares of a unit.
#![tactic(auto)]

mod connections;
mod demand;
mod demanded;
mod departure;
mod extras;
mod first_day;
mod kinds;
mod named_flights;
mod permitted;
mod shares;

pub use connections::{stopovers, stopovers_ok, transfers_ok};
pub use demand::UnitDemand;
pub use demanded::{demands_are_rules, rules_stay_in_range};
pub use departure::day_time_ok;
pub use extras::{charge, surcharge};
pub use first_day::{advance_ok, season_ok, travel_ok};
pub use named_flights::flights_ok;
pub use permitted::limits_are_met;
pub use shares::share;
