//! What a search asks of the moves of residuals: the outcomes of a residual, each next residual with a
//! least price, and its least moves under bounds. Nothing above knows how moves are found.
#![tactic(auto)]

mod adding;
mod bounds;
mod case;
mod entry_order;
mod guesses;
mod keyed;
mod keying;
mod laws;
mod least;
mod leaving;
mod listing;
mod nearest;
mod numbered;
mod numbered_case;
mod row_order;
mod runs;
mod shortening;
mod spreading;
mod step_lists;
mod stepping;
mod steps;
mod tables;
mod unit_spots;
mod walking;

pub use bounds::{Bounds, OfKeys};
pub use case::Case;
pub use keyed::Placed;
pub use laws::{least_prices_are_least, reached_states_are_reached, residuals_tell};
pub use least::LeastMove;
pub use numbered::{PositionSteps, Step, StepLists, UnitSlot, UnitSteps};
pub use numbered_case::{ListsAfter, NumberedCase};
pub use spreading::{ByUnits, ResidualRows};
pub use steps::SearchSteps;
pub use tables::{PositionTable, Tables};
