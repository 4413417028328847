//! The versions of a book. One clerk files, and publishes a book after each filing; any number of watches look
//! at what is published, each in a thread of its own, without a lock and without waiting. What a watch has seen
//! only grows, and after it learns a receipt it sees all that was filed up to that receipt.
//! They rest on one history of filings, known in proofs alone: a log adds to it, and a front has seen a beginning of
//! it, may be copied without memory and handed to other threads; of two fronts the shorter begins the longer.
#![tactic(auto)]

mod clerk;
mod edition;
mod faults;
mod front;
mod log;
mod opening;
mod receipt;
mod rule;
mod store;
mod watch;

pub use clerk::Clerk;
pub use faults::FileFault;
pub use front::Front;
pub use log::FilingLog;
pub use opening::begin;
pub use receipt::Receipt;
pub use watch::Watch;
