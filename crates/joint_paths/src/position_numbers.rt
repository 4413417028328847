//! Positions by numbers, to put paths in order by where they lead.
use fare_law::{Mem, Place};
use flight_paths::Position;
use indexmap::IndexSet;
use std::alloc::Global;

/// What tells positions apart, as two numbers: letters would be hashed and compared one by one.
#[derive(Clone, Copy, PartialEq, Eq, Hash)]
pub struct PositionKey {
    range: u64,
    called: u64,
}

/// The positions to which paths led so far.
#[derive(Drop)]
pub struct PositionNumbers {
    positions: IndexSet<PositionKey>,
}

impl PositionNumbers {
    /// None yet.
    pub fn new(alloc: Global) -> PositionNumbers {
        PositionNumbers {
            positions: IndexSet::new(alloc),
        }
    }

    /// The number of where a path leads: 0 where the journey is complete. What has one number is compared before it is
    /// taken for one.
    pub fn number(&mut self, after: &Option<Position>) -> Result<usize, Mem> {
        match after {
            Some(position) => {
                let (number, _) = self.positions.insert_full(key_of(position))?;
                Ok(number.saturating_add(1))
            }
            None => Ok(0),
        }
    }
}

/// What tells a position apart.
fn key_of(position: &Position) -> PositionKey {
    let [a, b, c] = position.place.0;
    let [d, e, f] = letters_of(position.via);
    PositionKey {
        range: u64::from(position.lo) + u64::from(position.hi) * 4_294_967_296,
        called: u64::from_le_bytes([position.slice, position.leg, a, b, c, d, e, f]),
    }
}

/// The letters of the place called at first, or zeros.
fn letters_of(via: Option<Place>) -> [u8; 3] {
    match via {
        Some(place) => place.0,
        None => [0, 0, 0],
    }
}
