//! The script of a serving run: how many desks there are, and in which order they search and wait.
//! A script is read exactly, within the counts of requests and later filings, or the first line
//! that isn't of its form is named. What the desks do with it is for the layer above.
#![tactic(auto)]

mod faults;
mod laws;
mod lines;
mod numbers;
mod reading;

pub use faults::ScriptFault;
pub use laws::one_reading;
pub use lines::{Script, ScriptLine};
pub use reading::read_script;
