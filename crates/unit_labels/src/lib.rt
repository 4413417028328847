//! Labels of units along a ticket, and the machine that keeps the open units, over any kind of unit.
//! It knows nothing of fares: the crates above bring what may open, go on and close, and call its
//! two laws.
#![tactic(auto)]

mod laws;

pub use laws::{UnitSteps, label_laws, unit_laws};
