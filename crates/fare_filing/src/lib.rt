//! Filings as JSON, both ways: a filing's text is read exactly, with the first fault named by its
//! action, and what is read is within the limits of a filing. A filing within its limits is written
//! as text that is read again as itself. What a book makes of a filing is for the layer above.
#![tactic(auto)]

mod actions;
mod compact;
mod fares;
mod fault;
mod fields;
mod members;
mod pieces;
mod reading;
mod room;
mod rows;
mod rules;
mod seats;
mod text;
mod values;
mod written;

pub use fault::FilingFault;
pub use reading::read_filing;
pub use text::filing_text;
