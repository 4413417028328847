//! Numbered slots for values of one type, and a number. A pass takes what lies in a slot out by a single exchange and puts
//! it back; every pass knows the number. Any number of passes may do so at once, and none of them waits.
ghost use Rattle.std.specs.Prelude.{◌≡◌, ◌≤◌, ◌+◌, IfOk, None, length, slice_index};

use crate::rule::{SharedSlots, Slots};
use crate::slot_pass::SlotPass;
use std::alloc::{AllocError, Global};
use std::marker::Model;

/// Slots for values, and a number. Contracts see which board it is, and its number.
#[derive(Drop)]
pub struct SlotBoard<T> {
    slots: Slots<T>,
}

impl<T> Model for SlotBoard<T> {
    ghost use Rattle.std.specs.Prelude.{◌≡◌, ◌≤◌, ◌+◌};
    ghost use Rattle.shared_board.specs.Holding.{SlotsView};

    ghost Value = { SlotsView };

    ghost view = { λ b. record { board = b.slots.shared.table_id; number = b.slots.shared.key } };

    ghost invariant = { λ b. (b.slots.shared.table_id.words ≡ b.slots.shared.table_id.slots + 1) × (1 ≤ b.slots.shared.table_id.slots) × (b.slots.shared.table_id.slots ≤ 65536) };
}

impl<T: Drop> SlotBoard<T> {
    /// A board of so many empty slots, 1 to 65,536, with its first pass, which holds none of them.
    pub fn open(
        alloc: Global,
        number: u64,
        count: u32,
    ) -> Result<(SlotBoard<T>, SlotPass<T>), AllocError>
        requires { (1 ≤ count) × (count ≤ 65536) }
        ensures number { IfOk result (λ r. r.0.number ≡ number) }
        ensures slots { IfOk result (λ r. r.0.board.slots ≡ count) }
        ensures pass { IfOk result (λ r. r.1 ≡ record { of = r.0; held = None }) }
    {
        let words = words_of(alloc, number, count)?;
        let (slots, seat) = Slots::vacant(alloc, words.as_slice(), count as usize, &number)?;
        Ok((SlotBoard { slots }, SlotPass::new(seat)))
    }

    /// How many slots there are.
    pub fn count(&self) -> usize
        ensures count { result ≡ self.now.board.slots }
        ensures some { 1 ≤ result }
        ensures few { result ≤ 65536 }
    {
        self.slots.slot_count()
    }

    pub(crate) fn shared(&self) -> &SharedSlots<T>
        ensures same { (result.now.table_id ≡ self.now.board) × (result.now.key ≡ self.now.number) }
        ensures sizes { (self.now.board.words ≡ self.now.board.slots + 1) × (self.now.board.slots ≤ 65536) }
    {
        &self.slots.shared
    }
}

/// The board's words: its number, and a 0 for each slot.
fn words_of(alloc: Global, number: u64, count: u32) -> Result<Vec<u64>, AllocError>
    ensures number { IfOk result (λ v. slice_index v.items 0 ≡ number) }
    ensures count { IfOk result (λ v. length v.items ≡ count + 1) }
{
    let mut words = Vec::new(alloc);
    words.push(number)?;
    for i in 0..count {
        let _place = i;
        words.push(0)?;
    }
    Ok(words)
}
