//! The seats of flights.
ghost use Rattle.std.specs.Prelude.{◌≡◌, ◌≤◌, ◌<◌, ◌↔◌, ℕ, length, map, slice_index, Some, None, IsTrue, IsSome, IsBitSet, IsErrOf, IfErr, IfOk, OnErr, OnOk};
ghost use Rattle.std.specs.Bool.{OnFalse};
ghost use Rattle.fare_law.specs.Book.{row_key};
ghost use Rattle.fare_law.specs.Lists.{AllDifferent};
ghost use Rattle.seat_classes.specs.Held.{Changes, Counts, HasNoRoom, seats_at, seats_in};
ghost use Rattle.seat_classes.specs.Given.{HasCause, rows_have};

use crate::keys::{daily_key, dated_key, row_key};
use crate::row_name::RowName;
use crate::{SeatFault, SeatPut};
use fare_law::{Class, Flight, MOST_SEAT_ROWS, SeatKey, SeatRow};
use lane_mask::at_least;
use std::alloc::{AllocError, Global};
use std::collections::BTreeMap;
use std::marker::Model;

/// Seat rows, found by carrier, number, origin and day. Contracts see each key that has a row, once,
/// with its seats. There are at most `MOST_SEAT_ROWS`. A tree, since keys of a case can be made to meet in a table with a hash.
#[derive(Drop)]
pub struct Seats {
    rows: BTreeMap<RowName, [u8; 32]>,
}

impl Model for Seats {
    ghost use Rattle.std.specs.Prelude.{ℕ, ◌≤◌, length, List};
    ghost use Rattle.fare_law.specs.declared.filings.SeatKey.{SeatKey};
    ghost use Rattle.fare_law.specs.declared.limits.TheConstants.{MOST_SEAT_ROWS};

    ghost Value = { List (SeatKey × List ℕ) };

    ghost view = { λ s. s.rows.entries };

    ghost invariant = { λ s. length s.rows.entries ≤ MOST_SEAT_ROWS };
}

impl Seats {
    /// The seats of at most `MOST_SEAT_ROWS` rows. The first row that has the carrier, number, origin and date
    /// field of an earlier one is refused. A row for no flight has no effect.
    pub fn build(alloc: Global, rows: &[SeatRow]) -> Result<Seats, SeatFault>
        requires { length rows.now ≤ MOST_SEAT_ROWS }
        ensures rows { IfOk result (λ seats. (key : SeatKey) → seats_at seats key ≡ rows_have rows.now key) }
        ensures differ { OnOk result (AllDifferent (map row_key rows.now)) }
        ensures fault { IfErr result (HasCause rows.now) }
    {
        let mut seats = BTreeMap::new(alloc);
        for row in rows {
            let earlier = seats.insert(RowName::of(&row_key(row)), row.seats)?;
            if earlier.is_some() {
                return Err(SeatFault::Twice { line: row.line });
            }
        }
        Ok(Seats { rows: seats })
    }

    /// A flight's seats by class: those of the row of its day, or else of the row of all days, or
    /// else none. A class that the row doesn't name has none.
    pub fn seats_of(&self, flight: &Flight) -> [u8; 32]
        ensures { (class : ℕ) → slice_index result class ≡ seats_in self.now flight.now class }
    {
        match self.row(&dated_key(flight)) {
            Some(seats) => seats,
            None => self.row(&daily_key(flight)).unwrap_or([0; 32]),
        }
    }

    /// The seats of a key, where it has a row.
    fn row(&self, key: &SeatKey) -> Option<[u8; 32]>
        ensures { result ≡ seats_at self.now key.now }
    {
        self.rows.get(&RowName::of(key)).copied()
    }

    /// The classes with seats for a party: bit c is set exactly where class c has at least `party`.
    pub fn mask(&self, flight: &Flight, party: u8) -> u32
        ensures { (class : ℕ) → class < 32 → (IsBitSet result class ↔ (party ≤ seats_in self.now flight.now class)) }
    {
        at_least(&self.seats_of(flight), party)
    }

    /// Whether a class has at least `party` seats. It is the class's bit of `mask`, and false from
    /// class 32 on.
    pub fn seated(&self, flight: &Flight, class: Class, party: u8) -> bool
        ensures { IsTrue result ↔ ((class < 32) × (party ≤ seats_in self.now flight.now class)) }
    {
        match self.seats_of(flight).get(usize::from(class)) {
            Some(seats) => *seats >= party,
            None => false,
        }
    }

    /// The number of rows.
    pub fn count(&self) -> u32
        ensures { Counts self.now result }
    {
        self.rows.len() as u32
    }

    /// Gives a key these seats, in place of those that it has. A new row beside `MOST_SEAT_ROWS` is refused.
    /// After a refusal the rows are as before.
    pub fn put(&mut self, _alloc: Global, key: &SeatKey, seats: &[u8; 32]) -> Result<(), SeatPut>
        ensures row { OnOk result (Changes self.old self.new key.now (Some seats.now)) }
        ensures full { IsErrOf result SeatPut.Full ↔ HasNoRoom self.old key.now }
        ensures same { OnErr result (self.new ≡ self.old) }
    {
        let name = RowName::of(key);
        if self.rows.len() == MOST_SEAT_ROWS && !self.rows.contains_key(&name) {
            return Err(SeatPut::Full);
        }
        self.rows.insert(name, *seats)?;
        Ok(())
    }

    /// Takes the row of a key away. False where there is none, and then nothing changes.
    pub fn drop_row(&mut self, key: &SeatKey) -> bool
        ensures found { IsTrue result ↔ IsSome (seats_at self.old key.now) }
        ensures row { Changes self.old self.new key.now None }
        ensures same { OnFalse result (self.new ≡ self.old) }
    {
        self.rows.remove(&RowName::of(key)).is_some()
    }
}

impl Clone for Seats {
    ghost is_clone = { λ v w. w ≡ v };

    fn clone(&self) -> Result<Seats, AllocError> {
        Ok(Seats {
            rows: self.rows.clone()?,
        })
    }
}
