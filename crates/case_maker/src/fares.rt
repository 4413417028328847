//! What the action that puts a fare says.

/// A fare of the made case.
#[derive(Clone, Copy)]
pub(crate) struct MadeFare {
    pub from: [u8; 3],
    pub to: [u8; 3],
    pub basis: [u8; 4],
    /// The letter of its class.
    pub class: u8,
    /// The letter of its kind.
    pub kind: u8,
    pub amount: u64,
    pub rule: u64,
}
