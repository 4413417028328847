//! A search: the runs that are drawn, and what waits.
use crate::kept::Kept;
use crate::waiting::Waiting;
use best_k::Derivation;
use fare_law::List;

/// The runs from the root that are drawn, the branches that wait, and the steps that are kept.
#[derive(Drop)]
pub struct Search {
    pub root: u64,
    pub kept: Kept,
    pub drawn: List<Derivation>,
    pub waiting: Waiting,
}
