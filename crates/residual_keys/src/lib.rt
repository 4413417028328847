//! Residuals of a search, which keep what the rest of a ticket depends on: where a search begins, what a
//! move leaves, and all moves of a residual. The layers above make residuals of given parts, and call
//! the laws: runs from the root are the lawful tickets, the least runs are the best tickets, runs are
//! short, residuals are ordered.
#![tactic(auto)]

mod beginning;
mod choices;
mod choosing;
mod component;
mod gathering;
mod kept;
mod laws;
mod leaving;
mod limits;
mod open_units;
mod parts;
mod priced;
mod reading;
mod residual;
mod stepping;
mod text;
mod way;
mod words;

pub use beginning::root;
pub use choosing::moves;
pub use component::{facts_over, first_of, last_of};
pub use kept::{part_kept, unit_kept};
pub use laws::{
    best_runs, nothing_lost, one_best, one_next, one_size, reached_is_written, residual_order,
    runs_are_short,
};
pub use leaving::next_after;
pub use limits::book_limits;
pub use open_units::OpenUnits;
pub use parts::{TicketPart, one_more, part_allows, with_end};
pub use reading::{one_residual_text, part_of, position_of, read_residual, unit_of};
pub use residual::{Chosen, Next, Residual};
pub use stepping::step;
pub use text::{push_part, push_position, push_residual, push_unit, residual_text};
pub use way::Way;
