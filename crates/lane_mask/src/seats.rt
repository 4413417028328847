// Which classes have seats enough.
ghost use Rattle.std.specs.Prelude.{ℕ, ◌<◌, ◌≤◌, ◌↔◌, slice_index, IsBitSet};

use std::simd::prelude::*;

/// Bit i is set exactly where `seats[i]` is at least `party`.
pub fn at_least(seats: &[u8; 32], party: u8) -> u32
    ensures { (i : ℕ) → i < 32 → (IsBitSet result i ↔ (party ≤ slice_index seats.now i)) }
{
    let enough = u8x32::from_array(*seats).simd_ge(u8x32::splat(party));
    enough.to_bitmask() as u32
}
