//! The check of a certificate: yes where the five checks hold, else the first that fails, with its place.
//! Whoever has the book, the request and the certificate need not search: yes means that the
//! certificate's answers are the best tickets. Nothing below it is needed by a search alone.
#![tactic(auto)]

mod answering;
mod bounding;
mod bounds;
mod checking;
mod departing;
mod drawings;
mod fronts;
mod places;
mod requesting;
mod rows;
mod stepping;
mod table;
mod taking;
mod verdict;

pub use checking::check;
pub use verdict::Verdict;
