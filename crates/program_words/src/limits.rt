//! The limits of options.

/// The most residuals that a budget allows.
pub const MOST_BUDGET: u32 = 1_000_000;

/// The budget where none is given.
pub const DEFAULT_BUDGET: u32 = 100_000;

/// The greatest number of a version: a book has at most so many filings.
pub const LAST_VERSION: u32 = 1_000_000;
