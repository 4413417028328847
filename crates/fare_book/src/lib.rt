//! Books: a timetable with the filings so far, and the fares, rules and seats that they leave. Books are
//! made by `Book::empty` and `Book::with`, which takes a filing whole or refuses it with its first
//! fault; sheets, fares and seats are found as the law defines them. An `OpenBook` takes many filings
//! without the versions between.
#![tactic(auto)]

mod book;
mod draft;
mod fare_actions;
mod fare_table;
mod faults;
mod keys;
mod known_list;
mod laws;
mod rows;
mod rule_actions;
mod same_fares;
mod seat_actions;
mod sheets;
mod tables;
mod taking;
mod timetable;
mod uses;

pub use book::{Book, OpenBook};
pub use faults::BookFault;
pub use laws::{one_fault_of_filings, one_fault_of_seats};
pub use timetable::Timetable;
