//! Comparisons of many numbers at once, on the machine's vectors.
//! `at_least` tells which of 32 classes have seats for a party, as the bits of a mask.
//! `between` tells which rows of a column pair hold a day, as a list of truths.
#![tactic(auto)]

mod rows;
mod seats;

pub use rows::between;
pub use seats::at_least;
