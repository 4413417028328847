//! The limits of a case.

/// The most places of a case.
pub const MOST_PLACES: usize = 1_000;

/// The most rows of flights of a case.
pub const MOST_FLIGHT_ROWS: usize = 5_000;

/// The most filings before a case's requests, and the most after them.
pub const MOST_FILINGS: usize = 1_000;

/// The most requests of a case that serves.
pub const MOST_REQUESTS: usize = 100;

/// The most lines of a script.
pub const MOST_SCRIPT_LINES: usize = 1_000;
