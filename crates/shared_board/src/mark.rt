//! What a pass shows at its board's table.

/// The board's number, and the slot that the pass holds.
#[derive(Clone, Copy)]
pub struct Mark {
    pub number: u64,
    pub held: Option<usize>,
}
