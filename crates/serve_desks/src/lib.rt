//! Desks in threads of their own, beside a clerk that files. Each later filing is judged in turn, each search of the
//! script is answered from a version that its desk could know, and the log of both is made at the end, whoever ended
//! first. A reply that is older than its desk's earlier ones, or than the filings that it waited for, is made anew.
#![tactic(auto)]

mod beside;
mod driving;
mod ending;
mod filing;
mod floors;
mod log;
mod minutes;
mod serving;
mod settling;
mod teller;
mod workload;

pub use driving::drive;
pub use log::{Body, Filed, Log, Reply};
pub use teller::Teller;
pub use workload::{Ask, Workload};
