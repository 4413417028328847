//! What names a row, as the table of rows compares it.
ghost use Rattle.std.specs.Prelude.{◌≡◌, refl};
ghost use Rattle.std.specs.Cmp.{partial_equiv_from_equiv, partial_order_from_total};
ghost use Rattle.std.specs.Ordering.{as_partial_cmp, eq_by_cmp};
ghost use Rattle.seat_classes.specs.Names.{AreBytes, compare_names, flight_code, names_equal, names_total, place_code};

use fare_law::{Carrier, Place, SeatKey};
use std::cmp::Ordering;
use std::marker::Model;

/// What names a row, with an order: by carrier and flight number as one number, then by origin as a number,
/// then by day. Numbers compare at once, and letters one after another.
#[derive(Clone, Copy)]
pub struct RowName {
    carrier: Carrier,
    number: u16,
    from: Place,
    day: Option<i32>,
}

impl Model for RowName {
    ghost use Rattle.fare_law.specs.declared.filings.SeatKey.{SeatKey};

    ghost Value = { SeatKey };

    ghost view = { λ name. record { carrier = name.carrier; number = name.number; from = name.from; day = name.day } };

    ghost inverse = { λ key. record { carrier = key.carrier; number = key.number; from = key.from; day = key.day } };
}

impl RowName {
    /// The name of this key.
    pub fn of(key: &SeatKey) -> RowName
        ensures { result ≡ key.now }
    {
        RowName {
            carrier: key.carrier,
            number: key.number,
            from: key.from,
            day: key.day,
        }
    }

    /// The carrier and the flight number as one number. Different ones have different numbers, since letters are bytes.
    fn flight_code(&self) -> u32
        ensures code { result ≡ flight_code self.now }
        ensures letters { AreBytes 2 self.now.carrier.0 }
    {
        let [first, second] = self.carrier.0;
        u32::from(first) + 256 * u32::from(second) + 65536 * u32::from(self.number)
    }

    /// The origin as a number. Different ones have different numbers, since letters are bytes.
    fn place_code(&self) -> u32
        ensures code { result ≡ place_code self.now }
        ensures letters { AreBytes 3 self.now.from.0 }
    {
        let [first, second, third] = self.from.0;
        u32::from(first) + 256 * u32::from(second) + 65536 * u32::from(third)
    }
}

impl PartialEq for RowName {
    ghost eq = { eq_by_cmp compare_names };

    ghost laws = { partial_equiv_from_equiv names_equal };

    fn eq(&self, other: &RowName) -> bool {
        self.cmp(other).is_eq()
    }
}

impl Eq for RowName {
    ghost laws = { names_equal };
}

impl PartialOrd for RowName {
    ghost partial_cmp = { as_partial_cmp compare_names };

    ghost laws = { partial_order_from_total names_total };

    fn partial_cmp(&self, other: &RowName) -> Option<Ordering> {
        Some(self.cmp(other))
    }
}

impl Ord for RowName {
    ghost cmp = { compare_names };

    ghost total = { names_total };

    ghost matches_partial_cmp = { λ a b. refl };

    ghost matches_eq = { λ a b. refl };

    fn cmp(&self, other: &RowName) -> Ordering {
        match self.flight_code().cmp(&other.flight_code()) {
            Ordering::Equal => match self.place_code().cmp(&other.place_code()) {
                Ordering::Equal => self.day.cmp(&other.day),
                unequal => unequal,
            },
            unequal => unequal,
        }
    }
}
