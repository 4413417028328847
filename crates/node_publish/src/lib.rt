//! Offers that several desks share. A node is a key with its offers; a store keeps nodes in cells that
//! are set once and read by anyone. What a desk knows of the cells is its pass, and no pass loses a node
//! that it knows. A `StoreSource` gives a search the offers of a store.
#![tactic(auto)]

mod cells;
mod keys;
mod node;
mod source;
mod store;

pub use keys::{asks_same, home_of};
pub use node::Node;
pub use source::StoreSource;
pub use store::{Kept, NodeStore, StorePass};
