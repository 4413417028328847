//! What a fare of a sheet costs on a component.
use fare_law::List;

/// A fare that is lawful on the component.
#[derive(Clone, Copy, PartialEq, Eq)]
pub struct Offer {
    /// The place of its row in the sheet, from 0.
    pub place: u32,
    /// What the component costs with it.
    pub price: u64,
}

/// Offers, ascending by place.
#[derive(Drop)]
pub struct OfferRows {
    pub rows: List<Offer>,
}
