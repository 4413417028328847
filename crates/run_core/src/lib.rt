//! The core of all interleavings: a world of one history and several desks, and the events that change it one after
//! another. Whatever threads do comes down to such a list of events. `step` takes one event or refuses it, `run` takes
//! a list up to the first that is refused, and what the answers record follows from the list alone.
#![tactic(auto)]

mod events;
mod fault;
mod laws;
mod making;
mod stepping;
mod world;

pub use events::{Event, Outcome, Recorded};
pub use fault::StepFault;
pub use laws::{answers_are_counted, kept_once, versions_never_fall};
pub use stepping::{run, step};
pub use world::World;
