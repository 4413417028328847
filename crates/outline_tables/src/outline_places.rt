//! Where outlines may stand, by a mark of each. Outlines may share a mark, so who is told a number compares what has it.
use fare_law::Mem;
use std::alloc::Global;

/// A slot that is empty.
const EMPTY: u64 = u64::MAX;

/// How many slots there are at first.
const FEWEST: usize = 1_024;

/// The numbers of outlines, each in the first slot from that of its mark on that was empty, with the mark above it: most are told
/// apart without a look at what has the number. At least half of the slots are empty.
#[derive(Drop)]
pub struct OutlinePlaces {
    alloc: Global,
    slots: Vec<u64>,
    count: usize,
}

impl OutlinePlaces {
    /// None yet.
    pub fn new(alloc: Global) -> OutlinePlaces {
        OutlinePlaces {
            alloc,
            slots: Vec::new(alloc),
            count: 0,
        }
    }

    /// How many there are.
    pub fn len(&self) -> usize {
        self.count
    }

    /// How many slots there are.
    pub fn room(&self) -> usize {
        self.slots.len()
    }

    /// What is in the slot so many steps after that of a mark.
    #[inline]
    pub fn slot(&self, mark: u32, step: usize) -> u64 {
        let spot = spot_of(self.slots.len(), mark, step);
        self.slots.get(spot).copied().unwrap_or(EMPTY)
    }

    /// Puts in a number with its mark.
    pub fn put(&mut self, mark: u32, number: usize) -> Result<(), Mem> {
        if self.count >= self.slots.len() / 2 {
            self.widen()?;
        }
        set(&mut self.slots, with_mark(mark, number));
        self.count = self.count.saturating_add(1);
        Ok(())
    }

    /// Has twice as many slots.
    fn widen(&mut self) -> Result<(), Mem> {
        let wide = self.slots.len().saturating_mul(2).max(FEWEST);
        let mut slots = Vec::from_elem(self.alloc, EMPTY, wide)?;
        for slot in self.slots.as_slice() {
            if !is_empty(*slot) {
                set(&mut slots, *slot);
            }
        }
        self.slots = slots;
        Ok(())
    }
}

/// Whether a slot is empty.
#[inline]
pub fn is_empty(slot: u64) -> bool {
    slot == EMPTY
}

/// The number in a slot, if it is there with this mark.
#[inline]
pub fn number_in(slot: u64, mark: u32) -> Option<usize> {
    if mark_in(slot) == mark {
        Some((slot & 0xffff_ffff) as usize)
    } else {
        None
    }
}

/// The mark in a slot.
fn mark_in(slot: u64) -> u32 {
    let [_, _, _, _, a, b, c, d] = slot.to_le_bytes();
    u32::from_le_bytes([a, b, c, d])
}

/// What is in the slot of a number with its mark.
fn with_mark(mark: u32, number: usize) -> u64 {
    let low = u32::try_from(number).unwrap_or(u32::MAX);
    u64::from(mark) * 4_294_967_296 + u64::from(low)
}

/// The place of the slot so many steps after that of a mark.
fn spot_of(count: usize, mark: u32, step: usize) -> usize {
    (mark as usize).wrapping_add(step) & count.saturating_sub(1)
}

/// Puts into the first empty slot from that of its mark on what is to be in it.
fn set(slots: &mut Vec<u64>, slot: u64) {
    let count = slots.len();
    for step in 0..count {
        let spot = spot_of(count, mark_in(slot), step);
        if put_at(slots, spot, slot) {
            return;
        }
    }
}

/// Puts it into the slot at a place, if that is empty.
fn put_at(slots: &mut Vec<u64>, spot: usize, slot: u64) -> bool {
    match slots.get_mut(spot) {
        Some(place) => {
            let is_free = is_empty(*place);
            if is_free {
                *place = slot;
            }
            is_free
        }
        None => false,
    }
}
