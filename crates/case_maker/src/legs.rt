//! What a row of a flight says beside its times.

/// A flight of the made case on its one day.
#[derive(Clone, Copy)]
pub(crate) struct Leg {
    pub number: u32,
    pub from: [u8; 3],
    pub to: [u8; 3],
    /// The one date of its departure, `YYYY-MM-DD`.
    pub date: [u8; 10],
}
