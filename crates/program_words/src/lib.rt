//! The program's words: the command line that they are, or none. `clap` parses them into a command's name and options
//! with texts; which options belong to a command, and which numbers their texts may be, is judged here. The layer above
//! gets a `Command` with its options, or `Usage` exactly where the words are no command line. No input is read.
#![tactic(auto)]

mod commands;
mod faults;
mod given;
mod laws;
mod limits;
mod lines;
mod numbers;
mod parsing;

pub use commands::Command;
pub use faults::WordsFault;
pub use laws::{worked_lines, worked_refusals};
pub use limits::{DEFAULT_BUDGET, LAST_VERSION, MOST_BUDGET};
pub use lines::read_words;
