//! The graph of a search: the residuals that moves from the root reach, in order, each with the least
//! price of a run from it.
#![tactic(auto)]

mod bounds;
mod drawing;
mod drawn;
mod fault;
mod giving;
mod graph;
mod laws;
mod moving;
mod rows;
mod settling;

pub use drawn::DrawnRun;
pub use fault::GraphFault;
pub use graph::Graph;
