//! Keys of residuals.
ghost use Rattle.std.specs.Prelude.{◌≡◌, ◌+◌, ◌*◌};
ghost use Rattle.open_unit.specs.Hashing.{carrier_number};

use residual_keys::TicketPart;
use std::hash::{Hash, Hasher};

/// A residual by the numbers of its position and of its open units.
#[derive(Clone, Copy, PartialEq, Eq)]
pub struct ResidualKey {
    /// The number of its position.
    pub position: u32,
    /// Of the unit that was opened first: 0 where none is open, else one more than its number.
    pub first: u32,
    /// The same of the other one.
    pub second: u32,
    pub part: TicketPart,
}

// In two writes, where each field and each letter would cost one.
impl Hash for ResidualKey {
    ghost use Rattle.std.specs.Prelude.{◌+◌, ◌*◌, ◌++◌};
    ghost use Rattle.std.specs.Hash as fed;
    ghost use Rattle.std.specs.Cmp.Rules.{hashing};
    ghost use Rattle.std.proofs.Common.{rules};
    ghost use Rattle.open_unit.specs.Hashing.{carrier_is, carrier_number};

    ghost hash_input = { λ k. fed.u64 (k.position + k.first * 4294967296) ++ fed.u64 (k.second + (k.part.units + k.part.ends * 256 + carrier_number k.part.carrier * 65536) * 4294967296) };

    ghost respects_eq = { Prim.search (hashing, rules, carrier_is) };

    fn hash<H: Hasher>(&self, state: &mut H) {
        state.write_u64(u64::from(self.position) + u64::from(self.first) * 4294967296);
        state.write_u64(u64::from(self.second) + u64::from(number_of(&self.part)) * 4294967296);
    }
}

/// The ticket part as one number.
fn number_of(part: &TicketPart) -> u32
    ensures { result ≡ part.now.units + part.now.ends * 256 + carrier_number part.now.carrier * 65536 }
{
    u32::from(part.units) + u32::from(part.ends) * 256 + u32::from(part.carrier.number()) * 65536
}

/// What a key is sorted by: ranks in place of numbers, so that keys compare as their residuals do.
#[derive(Clone, Copy, PartialEq, Eq, PartialOrd, Ord)]
pub struct SortKey {
    /// The rank of its position.
    pub position: u32,
    /// The ranks of the unit that was opened first and of the other one, and the number of its ticket part, as the
    /// digits of one number, so that a comparison is one of numbers.
    pub rest: u128,
}
