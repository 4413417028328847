//! A row by numbers.
ghost use Rattle.std.specs.Prelude.{◌≡◌};
ghost use Rattle.certificate.specs.NumberedRows.{bound_of, key_of};

use residual_keys::TicketPart;
use residual_table::ResidualKey;

/// A row by the numbers of what its residual consists of, and its bound in two halves, so that it takes little room.
#[derive(Clone, Copy)]
pub struct NumberedRow {
    position: u32,
    first: u32,
    second: u32,
    part: TicketPart,
    bounded: bool,
    low: u32,
    high: u32,
}

impl NumberedRow {
    /// The row of a key and a bound.
    pub fn new(key: &ResidualKey, bound: Option<u64>) -> NumberedRow
        ensures key { key_of result ≡ key.now }
        ensures bound { bound_of result ≡ bound }
    {
        let halves = bound.unwrap_or(0);
        NumberedRow {
            position: key.position,
            first: key.first,
            second: key.second,
            part: key.part,
            bounded: bound.is_some(),
            low: (halves % 4_294_967_296) as u32,
            high: (halves / 4_294_967_296) as u32,
        }
    }

    /// Its key.
    pub fn key(&self) -> ResidualKey
        ensures { result ≡ key_of self.now }
    {
        ResidualKey {
            position: self.position,
            first: self.first,
            second: self.second,
            part: self.part,
        }
    }

    /// Its bound.
    pub fn bound(&self) -> Option<u64>
        ensures { result ≡ bound_of self.now }
    {
        if !self.bounded {
            return None;
        }
        Some(u64::from(self.low) + u64::from(self.high) * 4_294_967_296)
    }
}
