//! Groups of a market's fares: those of one carrier, rule and kind. A rule is tested once for a group
//! on some flights, and no fare but its class and its share enters after that.
#![tactic(auto)]

mod group;
mod grouping;
mod laws;
mod permits;
mod rungs;

pub use group::{FareGroup, GroupKey, GroupedFare, is_open};
pub use grouping::{first_row, groups_of, place_of};
pub use laws::{fares_by_group, one_rule, rows_stand_once};
pub use permits::{classes_of_all, extra};
pub use rungs::{Rung, first_share};
