//! The least moves of a residual that count under bounds: by a move's price and the bound of what it leaves. The others
//! aren't made: the table of the position tells with which flights their paths begin, where they end, and which groups of
//! fares they have, and other paths and groups are left out. The limit of totals sinks as moves are found.
#![tactic(auto)]

mod bounds;
mod bucket;
mod component;
mod drawing;
mod endings;
mod fares;
mod groups;
mod hopes;
mod leads;
mod least;
mod listing;
mod paths;
mod prospects;
mod roles;
mod search;
mod ways;

pub use bounds::ResidualBounds;
pub use leads::{Lead, leads_of};
pub use least::CountedMove;
pub use listing::least_moves;
pub use search::MoveSearch;
