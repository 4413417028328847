//! The calendar of a request of two slices: the least price for each pair of a day out and a day back, and its text.
//! The layer above relies on the clauses of `calendar`, that the cells are those of the calendar in order or why there
//! is none, of `push_calendar`, that the bytes are the calendar's text, and on the law `cells_have_the_best`, by which
//! the least price of the cells is that of the best ticket over all their days. The crates above cite the definition of
//! a cell's request. The price of a cell is what the first run of its request costs, found in the steps of a request that
//! shares its moves: nothing is put in order.
#![tactic(auto)]

mod asking;
mod calendars;
mod cell;
mod cells;
mod columns;
mod fault;
mod first_runs;
mod laws;
mod pricing;
mod sharing;
mod spans;
mod text;

pub use calendars::calendar;
pub use cell::{Cell, CellValue};
pub use fault::CalendarFault;
pub use laws::{cells_cover, cells_have_the_best};
pub use spans::Spans;
pub use text::push_calendar;
