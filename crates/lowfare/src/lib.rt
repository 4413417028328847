//! The program's two top calls over any source and sink: words, input, what a command makes of it, the text that is
//! written, the status. `serve` starts threads and waits for them, and `run`, which carries all other commands, doesn't.
//! Each command is a module of its own, and a definition of what it makes. The layer above also relies on the clauses of the calls that
//! tell of an outcome: `yes`, `no`, `unlawful`, `refused`, `too_large`.
#![tactic(auto)]

mod calendars;
mod case_search;
mod cases;
mod checking;
mod inputs;
mod laws;
mod limits;
mod making;
mod outcomes;
mod program;
mod searching;
mod serve_program;
mod service;
mod status;
mod verdicts;
mod words;
mod workloads;

pub use checking::{no, yes};
pub use outcomes::{Outcome, refused, too_large};
pub use program::run;
pub use serve_program::serve;
pub use status::Status;
pub use verdicts::unlawful;
pub use words::is_serve;
