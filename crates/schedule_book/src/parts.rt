//! Where the keys of a place may stand among sorted keys. What is told here is a guess, so who takes it looks it up.
ghost use Rattle.std.specs.Prelude.{◌<◌};

use fare_law::Mem;
use std::alloc::Global;

/// How many names of three capital letters there are.
const NAMES: usize = 17_576;

/// Where the keys of each place end, by the number of its name.
#[derive(Drop)]
pub struct Parts {
    ends: Vec<u32>,
}

impl Parts {
    /// The parts of these keys, each of a place's letters and a number.
    pub fn of(alloc: Global, keys: &[u64]) -> Result<Parts, Mem> {
        let mut ends = vec![in alloc; 0; NAMES]?;
        let mut at = 0_u32;
        for key in keys {
            at = at.saturating_add(1);
            if let Some(end) = ends.get_mut(name_of(*key)) {
                *end = at;
            }
        }
        fill_up(ends.as_mut_slice());
        Ok(Parts { ends })
    }

    /// How many of these keys may come before a key.
    pub fn guess(&self, keys: &[u64], key: u64) -> usize {
        let name = name_of(key);
        let from = match name.checked_sub(1) {
            Some(before) => self.end(before),
            None => 0,
        };
        let to = self.end(name);
        if from <= to && to <= keys.len() {
            from.saturating_add(keys[from..to].partition_point(|k| *k < key))
        } else {
            0
        }
    }

    /// Where the keys of a name end.
    fn end(&self, name: usize) -> usize {
        match self.ends.get(name) {
            Some(end) => *end as usize,
            None => 0,
        }
    }
}

/// The number of the name in a key, in the order of names.
fn name_of(key: u64) -> usize {
    let [_, _, _, _, c, b, a, _] = key.to_le_bytes();
    letter(a) * 676 + letter(b) * 26 + letter(c)
}

/// A capital letter's number, from 0.
fn letter(letter: u8) -> usize
    ensures { result < 256 }
{
    usize::from(letter.wrapping_sub(b'A'))
}

/// Gives each that is less than one before it that one's number.
pub fn fill_up(ends: &mut [u32]) {
    let mut last = 0;
    for at in 0..ends.len() {
        last = last.max(ends[at]);
        ends[at] = last;
    }
}
