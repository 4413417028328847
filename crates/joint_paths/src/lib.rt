//! Heads that cross into the next slice, and the tails of it, as they are joined. The heads are told apart by buckets of one
//! carrier and one first day, the tails by classes of one end, one position to which they lead and one last day.
//!
//! And what groups of fares cost on the paths of a bucket and a class: for a group the least price is looked for until a floor is
//! met below which no path can be.
#![tactic(auto)]

mod buckets;
mod crossing_heads;
mod fitting;
mod join_ends;
mod joining;
mod marks;
mod position_numbers;
mod rule_charges;
mod ruled_heads;
mod tail_classes;
mod tail_floors;

pub use buckets::Bucket;
pub use crossing_heads::{CrossingHead, HeadOrder, crossing_head};
pub use fitting::Fitting;
pub use join_ends::{JoinEnd, JoinEnds, JoinKey, JoinRange};
pub use joining::{JoinRoom, Joint, least_of};
pub use position_numbers::PositionNumbers;
pub use rule_charges::{Charged, RuleCharges};
pub use tail_classes::{JoinTail, NumberedPath, TailClass, TailClasses, TailEnd, classes_of_tails};
