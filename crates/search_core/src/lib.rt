//! The search of a book for a request: whether the request is one, then the best lawful tickets with
//! their prices, and a certificate that whoever has the book can check. A request is judged by the
//! timetable alone, so all versions of a book judge it alike.
#![tactic(auto)]

mod answering;
mod judging;
mod outcome;
mod rows;
mod runs;
mod schedules;
mod searching;
mod ticketing;

pub use judging::request_ok;
pub use outcome::{Answer, SearchFault};
pub use searching::search;
