//! Events, and what is recorded of answers.
use fare_law::{Filing, List, OfferKey, Priced, Request};
use std::sync::Arc;

/// One atomic action of the clerk or of a desk. Desks are numbered from 0.
#[derive(Drop)]
pub enum Event {
    /// The clerk files.
    File {
        filing: Arc<Filing>,
    },
    /// A desk looks at the version of the moment.
    Look {
        desk: u32,
    },
    /// A desk reads the kept offers of a key, if there are any.
    Fetch {
        desk: u32,
        key: OfferKey,
    },
    /// A desk keeps the offers of a key, where none are kept.
    Keep {
        desk: u32,
        key: OfferKey,
    },
    /// A desk answers a request from the version that it looked at.
    Answer {
        desk: u32,
        request: Request,
        budget: u32,
    },
}

/// What came of a request.
#[derive(Drop)]
pub enum Outcome {
    /// The best tickets, ascending by price and code.
    Tickets(List<Priced>),
    /// More residuals are reached than the budget allows.
    TooLarge,
}

/// An answer as it is recorded.
#[derive(Drop)]
pub struct Recorded {
    pub desk: u32,
    pub request: Request,
    /// The version that the desk had looked at: how many filings it has.
    pub version: u32,
    pub outcome: Outcome,
}
