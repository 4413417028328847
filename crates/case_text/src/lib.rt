//! The text of a case: `sections` gives the rows and lines of each of its sections, or the first
//! fault in the order of the lines. The lines of a text and the row of a single line are calls of
//! their own.
#![tactic(auto)]

mod borrowed;
mod contents;
mod faults;
mod feeding;
mod fields;
mod headers;
mod judging;
mod kinds;
mod limits;
mod lines;
mod marks;
mod numbers;
mod reading;
mod rows;
mod standing;

pub use borrowed::CaseLine;
pub use contents::Case;
pub use faults::{CaseFault, RowFault};
pub use kinds::CaseKind;
pub use limits::{MOST_FILINGS, MOST_FLIGHT_ROWS, MOST_PLACES, MOST_REQUESTS, MOST_SCRIPT_LINES};
pub use lines::{Line, case_lines};
pub use numbers::number_within;
pub use reading::sections;
pub use rows::{flight_row, place_row, seat_row};
