//! Words of a line: bytes between separators, and numbers in decimal digits. The readers and writers
//! of residuals and certificates stand on these calls: a line is cut at the first separator, a number
//! is read exactly, and words are added to a growing text with a separator between each two.
#![tactic(auto)]

mod cuts;
mod laws;
mod numbers;
mod pushes;

pub use cuts::{cut, cut_last};
pub use laws::{cuts_tell, numbers_tell};
pub use numbers::number_of;
pub use pushes::{push_joined, push_word};
