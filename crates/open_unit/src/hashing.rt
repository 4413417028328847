//! Hashing of open units. Numbers are packed, since each field and each letter by itself would cost a write.
ghost use Rattle.std.specs.Prelude.{◌≡◌, ◌+◌, ◌*◌};
ghost use Rattle.open_unit.specs.Hashing.{carrier_number, day_number, marks_number, place_number, rule_number};

use crate::{CarrierMark, OpenUnit, RuleMark};
use fare_law::Place;
use std::hash::{Hash, Hasher};

impl Hash for OpenUnit {
    ghost use Rattle.open_unit.specs.Hashing.{alike, writes};

    ghost hash_input = { writes };

    ghost respects_eq = { alike };

    fn hash<H: Hasher>(&self, state: &mut H) {
        let ends = u64::from(place_number(self.origin))
            + u64::from(place_number(self.end)) * 4294967296;
        state.write_u64(ends);
        state.write_i32(self.first_day);
        state.write_i32(day_number(self.least));
        state.write_i32(day_number(self.greatest));
        state.write_i32(day_number(self.by));
        state.write_u64(marks_number(self));
    }
}

impl CarrierMark {
    /// A number to hash a mark by: the letters of its carrier, or less.
    pub fn number(self) -> u16
        ensures { result ≡ carrier_number self }
    {
        match self {
            CarrierMark::NotYet => 0,
            CarrierMark::Mixed => 1,
            CarrierMark::One(carrier) => {
                let [a, b] = carrier.0;
                u16::from(a) + u16::from(b) * 256
            }
        }
    }
}

/// The marks and the small numbers of a unit as one number.
fn marks_number(unit: &OpenUnit) -> u64
    ensures { result ≡ marks_number unit.now }
{
    let small = u64::from(unit.count)
        + u64::from(unit.kinds) * 256
        + u64::from(unit.partner) * 65536;
    let marks = u64::from(unit.carrier.number()) + u64::from(rule_number(unit.rule)) * 65536;
    small + marks * 4294967296
}

/// The rule number of a mark, or the greatest there is.
fn rule_number(mark: RuleMark) -> u16
    ensures { result ≡ rule_number mark }
{
    match mark {
        RuleMark::One(number) => number,
        RuleMark::Mixed => u16::MAX,
    }
}

/// The letters of a place as a number.
fn place_number(place: Place) -> u32
    ensures { result ≡ place_number place }
{
    let [a, b, c] = place.0;
    u32::from(a) + u32::from(b) * 256 + u32::from(c) * 65536
}

/// A day, or the one before all.
fn day_number(day: Option<i32>) -> i32
    ensures { result ≡ day_number day }
{
    day.unwrap_or(-1)
}
