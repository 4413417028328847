//! The text of an answer: the tickets with their prices, their components and their flights.
//! The layer above relies on the clauses of `answer_text` and `push_answer_text`, that the bytes are the
//! answer's text, and on the law `one_answer_text`, that lawful tickets have no other text.
#![tactic(auto)]

mod laws;
mod lines;
mod tickets;

pub use laws::one_answer_text;
pub use tickets::{answer_text, push_answer_text};
