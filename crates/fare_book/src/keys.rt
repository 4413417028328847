//! What a book finds its sheets and rules by.
ghost use Rattle.std.specs.Prelude.{◌≡◌};
ghost use Rattle.fare_book.specs.Hashing.{market_number, rule_number};

use fare_law::{Carrier, Place};
use std::hash::{Hash, Hasher};

/// A market in the direction in which its fares are filed.
#[derive(Clone, Copy, PartialEq, Eq)]
pub struct Market {
    pub from: Place,
    pub to: Place,
}

/// What names a rule: its carrier and its number.
#[derive(Clone, Copy, PartialEq, Eq)]
pub struct RuleKey {
    pub carrier: Carrier,
    pub number: u16,
}

// One write: letters would cost a write each.
impl Hash for Market {
    ghost use Rattle.std.specs.Hash as fed;
    ghost use Rattle.std.specs.Cmp.Rules.{hashing};
    ghost use Rattle.std.proofs.Common.{rules};

    ghost hash_input = { λ m. fed.u64 (market_number m.from m.to) };

    ghost respects_eq = { Prim.search (hashing, rules) };

    fn hash<H: Hasher>(&self, state: &mut H) {
        state.write_u64(market_number(self.from, self.to));
    }
}

// One write likewise.
impl Hash for RuleKey {
    ghost use Rattle.std.specs.Hash as fed;
    ghost use Rattle.std.specs.Cmp.Rules.{hashing};
    ghost use Rattle.std.proofs.Common.{rules};

    ghost hash_input = { λ k. fed.u64 (rule_number k.carrier k.number) };

    ghost respects_eq = { Prim.search (hashing, rules) };

    fn hash<H: Hasher>(&self, state: &mut H) {
        state.write_u64(rule_number(self.carrier, self.number));
    }
}

/// The letters of two places as one number.
fn market_number(from: Place, to: Place) -> u64
    ensures { result ≡ market_number from to }
{
    let [a, b, c] = from.0;
    let [d, e, f] = to.0;
    let first = u64::from(a) + u64::from(b) * 256 + u64::from(c) * 65536;
    let second = u64::from(d) + u64::from(e) * 256 + u64::from(f) * 65536;
    first + second * 16777216
}

/// The letters of a carrier and a number as one number.
fn rule_number(carrier: Carrier, number: u16) -> u64
    ensures { result ≡ rule_number carrier number }
{
    let [a, b] = carrier.0;
    u64::from(a) + u64::from(b) * 256 + u64::from(number) * 65536
}
