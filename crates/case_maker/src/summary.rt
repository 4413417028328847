//! What is told of a made case and its search.

/// A made case by its seed and its size, and what its search found.
#[derive(Clone, Copy)]
pub struct Summary {
    pub seed: u32,
    /// How many hubs the case has.
    pub size: u32,
    /// How many dated flights it has.
    pub flights: usize,
    /// How many residuals the search reached.
    pub residuals: usize,
    /// How many tickets were found.
    pub tickets: usize,
    /// The first ticket's price, where there is one.
    pub cheapest: Option<u64>,
}
