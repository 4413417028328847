//! Tables of fares of one market.
use fare_law::{Fare, FareKey};
use std::collections::BTreeMap;

/// The live fares of a market by their keys. Most markets have one fare, which takes no node of a tree.
#[derive(Drop)]
pub enum FareTable {
    One(Fare),
    Many(BTreeMap<FareKey, Fare>),
}
