//! The tails of a slice, as they are joined with heads.
use fare_ends::TailEnds;
use fare_law::List;
use flight_paths::Path;
use joint_paths::{JoinEnds, TailClasses};

/// The tails of a slice.
#[derive(Drop)]
pub struct SliceTails {
    pub slice: u8,
    pub paths: List<Path>,
    /// The marks of the places where their flights arrive.
    pub marks: List<u64>,
    /// Those on which some class of seats is open, by classes.
    pub classes: TailClasses,
    /// For which of their ends places have fares.
    pub joins: JoinEnds,
    /// Where they end.
    pub ends: TailEnds,
}
