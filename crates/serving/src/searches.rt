//! A search of a script.

/// A search of the script.
#[derive(Clone, Copy)]
pub(crate) struct SearchLine {
    /// The number of its line, counted from 1.
    pub line: usize,
    /// The desk that searches, counted from 1.
    pub desk: u32,
    /// The ask, counted from 1.
    pub request: u32,
}
