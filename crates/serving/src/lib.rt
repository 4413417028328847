//! A serving run from its opening book to its text: the filings that come meanwhile, the searches of the script, each
//! answered by a desk from a version that it could know, and the text of both. The layer above relies on the one
//! clause of `served`, that the bytes are the text of such a run.
#![tactic(auto)]

mod bodies;
mod headings;
mod laws;
mod lines;
mod listing;
mod replies;
mod running;
mod searches;
mod tellers;
mod text;
mod versions;

pub use laws::logs_are_recorded;
pub use running::served;
pub use text::serve_text;
