//! Where the rows of keys are likely to stand. The places of one position's keys lie together, since keys that are looked up
//! one after another mostly are of few positions. A place is a guess: whoever looks there compares.
use certificate::NumberedRow;
use fare_law::Mem;
use residual_table::ResidualKey;
use std::alloc::Global;

/// The slots of the keys of one position.
#[derive(Clone, Copy)]
struct Run {
    first: usize,
    /// A power of two: half more than there are keys, or up to three times as many.
    count: usize,
}

/// Slots in which keys are looked up one after another, up to an empty one.
#[derive(Drop)]
pub struct Places {
    /// By the numbers of positions.
    runs: Vec<Run>,
    /// One more than the place of a key, or 0.
    slots: Vec<u32>,
}

/// The slots in which a key may be found.
#[derive(Clone, Copy)]
pub struct Walk {
    run: Run,
    at: usize,
    /// From one slot to the next: an odd number, so that each is come to.
    stride: usize,
}

impl Places {
    /// The places of keys, in order.
    pub fn of(alloc: Global, rows: &[NumberedRow]) -> Result<Places, Mem> {
        let mut places = Places {
            runs: Vec::new(alloc),
            slots: Vec::new(alloc),
        };
        for row in rows {
            places.count(&row.key())?;
        }
        let count = places.lay_out();
        places.slots.resize(count, 0)?;
        let mut place: u32 = 0;
        for row in rows {
            place = place.wrapping_add(1);
            places.put(&row.key(), place);
        }
        Ok(places)
    }

    // Counts a key at its position.
    fn count(&mut self, key: &ResidualKey) -> Result<(), Mem> {
        let position = key.position as usize;
        for _ in self.runs.len()..position + 1 {
            self.runs.push(Run { first: 0, count: 0 })?;
        }
        if let Some(run) = self.runs.get_mut(position) {
            run.count = run.count.wrapping_add(1);
        }
        Ok(())
    }

    // Lays out the slots of positions one after another, and tells how many there are.
    fn lay_out(&mut self) -> usize {
        let mut first: usize = 0;
        for run in self.runs.iter_mut() {
            let wanted = run.count.saturating_add(run.count / 2);
            run.first = first;
            run.count = wanted.checked_next_power_of_two().unwrap_or(wanted);
            first = first.saturating_add(run.count);
        }
        first
    }

    // Puts the place of a key into the first empty slot.
    fn put(&mut self, key: &ResidualKey, place: u32) {
        let Some(mut walk) = self.walk(key) else {
            return;
        };
        for _ in 0..walk.run.count {
            if let Some(slot) = self.slots.get_mut(walk.slot()) {
                if *slot == 0 {
                    *slot = place;
                    return;
                }
            }
            walk.go_on();
        }
    }

    /// The slots of a key. None where no key of its position stands.
    pub fn walk(&self, key: &ResidualKey) -> Option<Walk> {
        let run = *self.runs.get(key.position as usize)?;
        let group = group_of(key);
        Some(Walk {
            run,
            at: run.within(near(group).wrapping_add(key.first as usize)),
            stride: far(group),
        })
    }

    /// The place that stands in the slot of a walk.
    pub fn at(&self, walk: &Walk) -> Option<usize> {
        Some(self.slots.get(walk.slot())?.checked_sub(1)? as usize)
    }
}

impl Run {
    /// A slot of the run, by any number.
    fn within(self, number: usize) -> usize {
        number & self.count.saturating_sub(1)
    }
}

impl Walk {
    /// How many slots there are.
    pub fn count(&self) -> usize {
        self.run.count
    }

    /// On to the next slot.
    pub fn go_on(&mut self) {
        self.at = self.run.within(self.at.wrapping_add(self.stride));
    }

    fn slot(&self) -> usize {
        self.run.first.wrapping_add(self.at)
    }
}

// The group of a key: the second open unit and the ticket part. Keys of one group whose first units have numbers that come
// one after another, as those of rows that do, have slots side by side, so that what is loaded for the one serves the next.
fn group_of(key: &ResidualKey) -> u64 {
    let part = &key.part;
    let ticket = u64::from(part.units)
        + u64::from(part.ends) * 256
        + u64::from(part.carrier.number()) * 65536;
    u64::from(key.second).wrapping_mul(4294967296) ^ ticket
}

// Where the slots of a group begin.
fn near(group: u64) -> usize {
    (group.wrapping_mul(0x9e3779b97f4a7c15) >> 32) as usize
}

// How far the keys of a group go on where a slot is taken: far off, so that groups part which met.
fn far(group: u64) -> usize {
    (group.wrapping_mul(0xd1342543de82ef95) >> 32 | 1) as usize
}
