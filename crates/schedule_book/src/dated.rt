//! What names flights.
ghost use Rattle.std.specs.Prelude.{◌≡◌};
ghost use Rattle.schedule_book.specs.Hashing.{name_number};

use fare_law::{Carrier, Place};
use std::hash::{Hash, Hasher};

/// What tells a dated flight from the others.
#[derive(Clone, Copy, PartialEq, Eq)]
pub struct DatedNumber {
    pub carrier: Carrier,
    pub number: u16,
    pub from: Place,
    pub day: i32,
}

/// What tells the flights of one carrier, number and origin, on any day, from the others.
#[derive(Clone, Copy, PartialEq, Eq)]
pub struct FlightName {
    pub carrier: Carrier,
    pub number: u16,
    pub from: Place,
}

// Two writes: letters would cost a write each.
impl Hash for DatedNumber {
    ghost use Rattle.std.specs.Hash as fed;
    ghost use Rattle.std.specs.Prelude.{◌++◌};
    ghost use Rattle.std.specs.Cmp.Rules.{hashing};
    ghost use Rattle.std.proofs.Common.{rules};

    ghost hash_input = { λ d. fed.i32 d.day ++ fed.u64 (name_number d.carrier d.number d.from) };

    ghost respects_eq = { Prim.search (hashing, rules) };

    fn hash<H: Hasher>(&self, state: &mut H) {
        state.write_i32(self.day);
        state.write_u64(name_number(self.carrier, self.number, self.from));
    }
}

impl Hash for FlightName {
    ghost use Rattle.std.specs.Hash as fed;
    ghost use Rattle.std.specs.Cmp.Rules.{hashing};
    ghost use Rattle.std.proofs.Common.{rules};

    ghost hash_input = { λ n. fed.u64 (name_number n.carrier n.number n.from) };

    ghost respects_eq = { Prim.search (hashing, rules) };

    fn hash<H: Hasher>(&self, state: &mut H) {
        state.write_u64(name_number(self.carrier, self.number, self.from));
    }
}

/// The letters of a carrier and a place and a number between them, as one number.
fn name_number(carrier: Carrier, number: u16, from: Place) -> u64
    ensures { result ≡ name_number carrier number from }
{
    let [a, b] = carrier.0;
    let [c, d, e] = from.0;
    let letters = u64::from(a) + u64::from(b) * 256;
    let place = u64::from(c) + u64::from(d) * 256 + u64::from(e) * 65536;
    letters + u64::from(number) * 65536 + place * 4294967296
}
