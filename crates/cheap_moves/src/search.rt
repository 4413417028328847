//! What is asked of a residual's moves.
use fare_book::Book;
use fare_law::Request;
use residual_keys::Residual;

/// A residual of a request on a book, the bounds by which its moves count, and the limit of their totals.
#[derive(Drop)]
pub struct MoveSearch<'a, B> {
    pub book: &'a Book,
    pub request: &'a Request,
    pub residual: &'a Residual,
    pub bounds: &'a B,
    /// None: there is no limit.
    pub limit: Option<u128>,
}
