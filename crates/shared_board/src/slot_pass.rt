//! Passes of a board's slots.
ghost use Rattle.std.specs.Prelude.{◌≡◌, ◌<◌, ℕ, [], Some, None, IfNone, IfSome};
ghost use Rattle.shared_board.specs.Standing.{free};

use crate::rule::{GivesBack, Halves, Reads, SlotSeat, Takes};
use crate::slot_board::SlotBoard;
use std::marker::Model;

/// One who takes values out of a board's slots and puts them back, one at a time. Contracts see its board
/// and the slot that it holds, as its seat shows it at the board's table: so no two passes of a board hold one slot
/// (`slots_are_apart`). A slot stays out where a pass is dropped that holds it.
#[derive(Drop)]
pub struct SlotPass<T> {
    seat: SlotSeat<T>,
    held: Option<usize>,
}

impl<T> Model for SlotPass<T> {
    ghost use Rattle.std.specs.Prelude.{◌≡◌, Some};
    ghost use Rattle.shared_board.specs.Holding.{Holds, PassView, mark_of};

    ghost Value = { PassView };

    ghost view = { λ p. record { of = record { board = p.seat.table_id; number = (mark_of p.seat.me.0).number }; held = (mark_of p.seat.me.0).held } };

    ghost invariant = { λ p. (p.seat.me.0 ≡ Some (mark_of p.seat.me.0)) × (p.held ≡ (mark_of p.seat.me.0).held) × Holds p.held p.seat.me.1 };
}

impl<T: Drop> SlotPass<T> {
    pub(crate) fn new(seat: SlotSeat<T>) -> SlotPass<T>
        requires { (n : ℕ) × (seat.me ≡ (Some (free n), [])) }
        ensures { (result.of.board ≡ seat.table_id) × (Some (free result.of.number) ≡ seat.me.0) × (result.held ≡ None) }
    {
        SlotPass { seat, held: None }
    }

    /// A second pass of the board, which holds nothing.
    pub fn split(&mut self, board: &SlotBoard<T>) -> SlotPass<T>
        requires { self.old.of ≡ board.now }
        ensures same { self.new ≡ self.old }
        ensures second { result ≡ record { of = board.now; held = None } }
    {
        SlotPass {
            seat: board.shared().split_seat::<Halves>(&mut self.seat),
            held: None,
        }
    }

    /// Takes in another pass that holds nothing, and uses it up.
    pub fn join(&mut self, board: &SlotBoard<T>, other: SlotPass<T>)
        requires { (self.old.of ≡ board.now) × (other.of ≡ board.now) × (other.held ≡ None) }
        ensures { self.new ≡ self.old }
    {
        let SlotPass { seat, held: _ } = other;
        board.shared().join_seat::<Halves>(&mut self.seat, seat);
    }

    /// The board's number, as the board has it.
    pub fn number(&mut self, board: &SlotBoard<T>) -> u64
        requires { self.old.of ≡ board.now }
        ensures same { self.new ≡ self.old }
        ensures number { result ≡ board.now.number }
    {
        board.shared().load::<Reads>(&mut self.seat, 0)
    }

    /// Takes what lies in the slot, by one exchange; the pass then holds the slot. `None` where another pass has it out.
    pub fn take(&mut self, board: &SlotBoard<T>, slot: usize) -> Option<Option<T>>
        requires { (self.old.of ≡ board.now) × (slot < board.now.board.slots) × (self.old.held ≡ None) }
        ensures of { self.new.of ≡ self.old.of }
        ensures some { IfSome result (λ _. self.new.held ≡ Some slot) }
        ensures none { IfNone result (self.new.held ≡ None) }
    {
        let shared = board.shared();
        if shared.swap::<Takes>(&mut self.seat, slot + 1, 1) != 0 {
            return None;
        }
        self.held = Some(slot);
        Some(shared.exchange(&mut self.seat, slot, None))
    }

    /// Puts this into the slot that the pass holds, which is at home again. What was left there meanwhile is let go.
    pub fn put(&mut self, board: &SlotBoard<T>, slot: usize, value: Option<T>)
        requires { (self.old.of ≡ board.now) × (slot < board.now.board.slots) × (self.old.held ≡ Some slot) }
        ensures of { self.new.of ≡ self.old.of }
        ensures held { self.new.held ≡ None }
    {
        let shared = board.shared();
        drop(shared.exchange(&mut self.seat, slot, value));
        shared.store::<GivesBack>(&mut self.seat, slot + 1, 0);
        self.held = None;
    }
}
