//! What is kept of a unit that is open, and the four roles that a component may have in a unit:
//! it stands alone, opens a unit, goes on in an open one, or closes it. The layers above ask by
//! these calls and by the definitions in `specs/` alone.
#![tactic(auto)]

mod fares;
mod hashing;
mod joined;
mod kinds;
mod marks;
mod pieces;
mod reading;
mod roles;
mod units;

pub use fare_law::Piece;
pub use marks::{CarrierMark, RuleMark};
pub use reading::Facts;
pub use units::OpenUnit;
