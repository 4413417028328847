//! Whether a whole ticket is lawful, or its first breach: the rule of the least number that it breaks,
//! and the least component that breaks it. A ticket is lawful exactly where it meets each demand, and it
//! has one first breach at most.
//! Besides what the law demands of a ticket, demand by demand, and what a ticket and each of its components
//! cost, lawful or not. What a component meets by itself and in its unit, a category alone too, its flights
//! and its direction, the kind of a unit, and what the flights of all components meet, is told by a call
//! each. No call takes memory.
#![tactic(auto)]

mod boundaries;
mod breach;
mod category_rules;
mod component;
mod component_flights;
mod demand;
mod fares_on;
mod journey;
mod judgement;
mod known;
mod laws;
mod meeting;
mod pricing;
mod routes;
mod stretch;
mod unit_rules;
mod units;

pub use breach::Breach;
pub use category_rules::category_meets;
pub use component::component_meets;
pub use component_flights::flights_of;
pub use demand::{CategoryDemand, ComponentDemand, Demand, JourneyDemand, UnitDemand};
pub use journey::cuts_meet;
pub use judgement::lawful;
pub use laws::{
    first_day_by_category, lawful_where_met, one_first_breach, one_kind, stay_by_category,
};
pub use meeting::broken_at;
pub use pricing::{component_price, price};
pub use stretch::is_reverse;
pub use unit_rules::part_meets;
pub use units::unit_kind;
