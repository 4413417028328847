//! Components with their prices.
use fare_law::FareKey;
use flight_paths::Path;
use open_unit::Facts;

/// A component on a path: what units and tickets read of it, the key of its fare, and its price.
#[derive(Drop)]
pub struct PricedComponent<'a> {
    pub path: &'a Path,
    pub facts: Facts<'a>,
    pub key: &'a FareKey,
    pub price: u64,
}
