//! A book in memory, and what a shop asks of it in bytes: it is opened from the text of a case, takes a filing as a
//! new book, and is searched, checked, priced by days and asked for verdicts, with the texts of the program's
//! commands and no case read again. The book that is asked stays as it is. `run_over` runs a command of the program
//! over bytes in memory.
//!
//! A text that is asked about stands for the one line, or for the lines, of its section of a case: the lines of a
//! refusal are counted from 1 in that text.
//!
//! `handles` has the same calls for C, over handles by which it holds books and texts.
#![tactic(auto)]

mod asking;
mod calendars;
mod certificates;
mod checking;
mod filing;
mod handles;
mod limits;
mod opening;
mod refusals;
mod replies;
mod running;
mod searching;
mod sinks;
mod tickets;
mod verdicts;

pub use calendars::calendar_text;
pub use checking::check_text;
pub use filing::file;
pub use handles::{
    Handle, Kept, Owned, lowfare_book_close, lowfare_book_share, lowfare_calendar, lowfare_check,
    lowfare_file, lowfare_open, lowfare_run, lowfare_search, lowfare_text_copy, lowfare_text_free,
    lowfare_text_length, lowfare_verdict, lowfare_version,
};
pub use lowfare::Outcome;
pub use opening::open_book;
pub use replies::Replied;
pub use running::run_over;
pub use searching::search_text;
pub use verdicts::verdict_text;
