//! The parts of a certificate.
use crate::CertRows;
use fare_law::{ArrayVec, List, MOST_COMPONENTS, Move, Request};
use residual_keys::Residual;

/// An answer: what its ticket costs, and the moves that make it.
#[derive(Drop)]
pub struct CertAnswer {
    pub price: u64,
    pub moves: ArrayVec<Move, MOST_COMPONENTS>,
}

/// A residual, and a bound below which no run from it costs.
#[derive(Clone, Copy, PartialEq, Eq, Debug)]
pub struct CertRow {
    pub residual: Residual,
    /// None where no run is said to begin here.
    pub bound: Option<u64>,
}

/// What a search says to whoever checks it.
#[derive(Drop)]
pub struct Certificate {
    /// The version that was searched: the number of its filings.
    pub number: u32,
    pub request: Request,
    /// Ascending by price and code.
    pub answers: List<CertAnswer>,
    /// Ascending by residual.
    pub rows: CertRows,
}
