//! The spots at which texts of open units are kept. A spot is a guess: another text may stand there, so who looks compares.

/// How many spots there are.
pub const SPOTS: usize = 4096;

/// The spot of a text.
pub fn text_spot(text: &[u8]) -> usize {
    let (pieces, _) = text.as_chunks::<8>();
    let mut all = text.len() as u64;
    for piece in pieces {
        all = mixed(all, u64::from_le_bytes(*piece));
    }
    let end = text
        .last_chunk::<8>()
        .map_or(0, |bytes| u64::from_le_bytes(*bytes));
    spot(mixed(all, end))
}

// One number of two.
fn mixed(one: u64, other: u64) -> u64 {
    (one ^ (one >> 29) ^ other).wrapping_mul(0x9e3779b97f4a7c15)
}

fn spot(mixed: u64) -> usize {
    (mixed >> 52) as usize
}
