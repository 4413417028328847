//! Guesses where something stands, by spots. Keys may share a spot, so who takes a guess compares what stands there.
use fare_law::Mem;
use std::alloc::Global;

/// For each spot a place of a list, or none that a list has.
#[derive(Drop)]
pub struct Guesses {
    places: Vec<u32>,
}

impl Guesses {
    /// No spots yet.
    pub fn new(alloc: Global) -> Guesses {
        Guesses {
            places: Vec::new(alloc),
        }
    }

    /// The place at a spot.
    pub fn get(&self, spot: usize) -> Option<usize> {
        self.places.get(spot).map(|place| *place as usize)
    }

    /// Puts a place at a spot.
    pub fn put(&mut self, spot: usize, place: usize) {
        if let Some(known) = self.places.get_mut(spot) {
            *known = u32::try_from(place).unwrap_or(u32::MAX);
        }
    }

    /// Has at least so many spots then.
    pub fn widen(&mut self, count: usize) -> Result<(), Mem> {
        if self.places.len() < count {
            let wide = count.checked_next_power_of_two().unwrap_or(count);
            self.places.resize(wide, u32::MAX)?;
        }
        Ok(())
    }

    /// The spot of two numbers.
    pub fn spot_of(&self, one: usize, other: u32) -> usize {
        let mixed = (one as u64).wrapping_mul(0xd1342543de82ef95) ^ u64::from(other);
        let spread = mixed.wrapping_mul(0x9e3779b97f4a7c15) >> 32;
        spread as usize & self.places.len().saturating_sub(1)
    }

    /// The spot of a number in a group: those of one group lie side by side, so that numbers near each other share what is
    /// loaded.
    pub fn near_spot(&self, group: u32, number: usize) -> usize {
        let spread = u64::from(group).wrapping_mul(0x9e3779b97f4a7c15) >> 32;
        (spread as usize).wrapping_add(number) & self.places.len().saturating_sub(1)
    }

    /// The spot to look at after this one for a number in a group: far off, so that groups part which met.
    pub fn far_spot(&self, group: u32, spot: usize) -> usize {
        let stride = u64::from(group).wrapping_mul(0xd1342543de82ef95) >> 32 | 1;
        spot.wrapping_add(stride as usize) & self.places.len().saturating_sub(1)
    }

    /// How many spots there are.
    pub fn len(&self) -> usize {
        self.places.len()
    }

    /// The spot to look at after this one.
    pub fn next_spot(&self, spot: usize) -> usize {
        spot.wrapping_add(1) & self.places.len().saturating_sub(1)
    }
}
