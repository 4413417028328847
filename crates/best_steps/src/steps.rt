//! Steps of nodes.
use fare_law::List;

/// A step of a node.
#[derive(PartialEq, Eq, PartialOrd, Ord, Clone, Drop)]
pub struct Step {
    pub price: u64,
    /// The price, and the least that any run costs which goes on from it.
    pub total: u64,
    pub word: List<u64>,
    /// The node that it leads to; none is the end.
    pub next: Option<u64>,
}
