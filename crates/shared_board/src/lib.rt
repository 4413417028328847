//! One search that several passes share. Its nodes lie in the slots of a board: a pass takes a node out of its slot by a
//! single exchange, reads its offers and puts it back, and builds for itself what it doesn't find. So no pass waits for
//! another, and each answers as a search alone does, whatever the others do. By the law `slots_are_apart` no two passes
//! hold one slot.
#![tactic(auto)]

mod board;
mod homes;
mod laws;
mod mark;
mod pass;
mod rule;
mod slot_board;
mod slot_pass;
mod source;
mod walking;

pub use board::Board;
pub use laws::slots_are_apart;
pub use pass::BoardPass;
