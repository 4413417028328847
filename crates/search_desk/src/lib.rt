//! A desk: a watch on the versions of a book and a pass for shared nodes. It searches the version that it looks at, by
//! offers that are found with other desks' nodes or built and kept, and it waits for nobody. So every search names a
//! version of the one filing history, no older than its desk had seen, and gives exactly that version's k cheapest
//! lawful tickets.
//! The teller of a serving run is a desk that answers asks; its answers are what the core of events (`run_core`)
//! records of it.
#![tactic(auto)]

mod answering;
mod desk;
mod laws;
mod settled;
mod teller;

pub use desk::Desk;
pub use laws::{replies_are_recorded, searches_are_recorded};
pub use teller::DeskTeller;
