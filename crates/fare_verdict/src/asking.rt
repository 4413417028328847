//! A demand with its number.
use ticket_whole::Demand;

/// A demand, and the number of its rule.
#[derive(Clone, Copy)]
pub struct Asked {
    pub rule: u8,
    pub demand: Demand,
}
