//! A component as it is made of a path and a group of fares.
use crate::prospects::Prospect;
use component_table::Market;
use fare_groups::FareGroup;
use fare_law::{List, Role};
use open_unit::Facts;
use residual_keys::{Next, Way};

/// A path with its flights and legs, the classes that are open in every leg, and the groups of fares with which a move
/// on it may be within the limit.
#[derive(Drop)]
pub struct Flown {
    pub way: Way,
    pub classes: u32,
    pub prospects: List<Prospect>,
}

/// The components of a group's fares on a path. They differ in the fare alone.
#[derive(Drop)]
pub struct Component<'a> {
    pub flown: &'a Flown,
    pub market: &'a Market,
    pub group: &'a FareGroup,
    /// What units and tickets read of each of them.
    pub facts: Facts<'a>,
    /// What the group's rule adds to a fare's share.
    pub charges: u64,
}

/// A role and slot that a component may have, what it then leaves, and what a run costs at least from there.
#[derive(Drop)]
pub struct Onward {
    pub role: Role,
    pub slot: u8,
    pub next: Next,
    pub rest: u64,
}
