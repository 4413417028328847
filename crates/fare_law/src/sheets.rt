//! What a sheet has for each fare, and what an offer is asked by.
use crate::{Fare, Flight, Rule, Shared};

/// A live fare with its rule.
#[derive(PartialEq, Eq, Drop)]
pub struct SheetRow {
    pub fare: Fare,
    pub rule: Shared<Rule>,
}

/// A flight of a component, with the classes that have seats for the party.
#[derive(Clone, Copy, Default, PartialEq, Eq)]
pub struct Leg {
    pub flight: Flight,
    /// Bit c is set where class c has seats for the whole party.
    pub classes: u32,
}
