//! Whole cases: from bytes to the case's book and its request, or the first refusal, by stages, with
//! its line and its reason. The stages are the form of the lines, the places and flights, the seats,
//! the filings, each read and then taken by the book, the later filings of a serving run, which are only read, the
//! request or requests, then what a calendar asks of it, the ticket of a verdict, the script of a serving run or the
//! certificate of a check, and last the version asked for.
#![tactic(auto)]

mod asked;
mod books;
mod calendar;
mod certificates;
mod check;
mod filings;
mod histories;
mod laws;
mod reasons;
mod refusals;
mod requests;
mod rows;
mod scripts;
mod search;
mod serve;
mod serve_laws;
mod serve_lines;
mod spans;
mod texts;
mod tickets;
mod verdict;

pub use calendar::{CalendarCase, load_calendar_case};
pub use check::{CheckCase, load_check_case};
pub use laws::{
    one_calendar_case, one_check_case, one_search_case, one_verdict_case, spelled_calendars_fit,
    spelled_requests_are_right,
};
pub use refusals::{LoadFault, Reason, Refusal, RuleWhy};
pub use search::{SearchCase, load_search_case};
pub use serve::{ServeCase, load_serve_case};
pub use serve_laws::{one_serve_case, spelled_asks_are_right};
pub use texts::refusal_text;
pub use verdict::{VerdictCase, load_verdict_case};
