//! What is answered, and how filings were judged.
use fare_law::{List, Priced, Refused};

/// What came of a search.
#[derive(Debug, PartialEq, Eq, Drop)]
pub enum Body {
    /// Ascending by price and code.
    Tickets(List<Priced>),
    /// More residuals are reached than the budget allows.
    TooLarge,
}

/// A reply to a search: the version that was searched, and what came of it.
#[derive(Debug, PartialEq, Eq, Drop)]
pub struct Reply {
    /// How many filings the version has.
    pub number: u32,
    pub body: Body,
}

/// How a later filing was judged.
#[derive(Clone, Copy, Debug, PartialEq, Eq)]
pub enum Filed {
    /// It was filed, and made the version of this number.
    Accepted { number: u32 },
    /// It has a fault.
    Refused(Refused),
}

/// How each later filing was judged, and the replies, one for each search of the script.
#[derive(Debug, PartialEq, Eq, Drop)]
pub struct Log {
    pub filed: List<Filed>,
    pub replies: List<Reply>,
}

/// A reply, with the script's line and the ask that it is for.
#[derive(Drop)]
pub(crate) struct Entry {
    /// Counted from 0.
    pub line: usize,
    /// Counted from 1.
    pub request: u32,
    pub reply: Reply,
}
