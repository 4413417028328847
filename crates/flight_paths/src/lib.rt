//! Where a journey stands, and which flights lead on from there: the position where it begins, exactly
//! the paths of a position, in a list or one after another, and exactly the flights of one slice, over any
//! book of a schedule. A path is a head in its slice, or such a head and a tail from the next slice's window.
//! The layers above read the definitions in `specs/`: takeable flights, ranges, paths, heads and tails.
#![tactic(auto)]

mod ends;
mod laws;
mod marks;
mod parts;
mod paths;
mod positions;
mod ranges;
mod single;
mod steps;
mod visits;
mod ways;

pub use ends::{Ends, tails_to};
pub use laws::{crosses_in_time, heads_and_tails, heads_are_short};
pub use marks::marks_of;
pub use parts::{heads, tails};
pub use paths::{component_paths, root_position, slice_paths};
pub use positions::{Path, Position, SomeTails};
pub use single::path_of;
pub use visits::{PathVisitor, joined, visit_paths};
