//! The k least runs of a graph whose nodes give their least steps when they are asked: of the steps of a node no more
//! are worked out than answers need. The layer above gives `Steps` and their laws; `best_steps` gives exactly the least
//! runs, ascending by price and then word, in the words of `best_k`, which draws from a lattice of all choices.
#![tactic(auto)]

mod asking;
mod branches;
mod draws;
mod kept;
mod queue;
mod search;
mod source;
mod steps;
mod waiting;
mod words;

pub use draws::best_steps;
pub use source::Steps;
pub use steps::Step;
