//! The made case: a search case of any size that a seed decides, with hubs between two places, rules, and fares
//! of drawn amounts; and the line that sums up what its search found.
//! The layer above relies on the clauses of `make` and `push_summary`, which give the text itself, and on two laws:
//! `made_cases_are_short`, and `made_cases_are_taken`, by which a made case is a case: its text spells places, dated
//! flights, seats, one filing and a request, none of which is refused.
#![tactic(auto)]

mod clock;
mod fares;
mod filing;
mod laws;
mod legs;
mod making;
mod names;
mod page;
mod summary;
mod summing;
mod tables;
mod taking;

pub use laws::{made_cases_are_short, made_cases_have_lines, made_cases_have_sections};
pub use making::make;
pub use summary::Summary;
pub use summing::push_summary;
pub use taking::made_cases_are_taken;
