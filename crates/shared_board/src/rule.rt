//! The rule of a board, and what its steps tell.
ghost use Rattle.shared_board.specs.Standing.{Found, IsNumber, Puts, Stands};

use crate::mark::Mark;
use atomic_table::{Join, Play, Seat, Shared, Split, Table, TableRule};
use std::alloc::Global;

/// The board's word is its number, each slot whose word is 0 is at home, and no two seats show that they hold one slot.
pub struct Standing;

impl<S> TableRule<S, Option<Mark>, u64> for Standing {
    ghost use Rattle.std.specs.Prelude.{Some};
    ghost use Rattle.shared_board.specs.Standing.{free};

    ghost holds = { Stands };

    ghost first = { λ number. Some (free number) };
}

/// A slot's word becomes 1: the seat takes what is at home, if anything is, and shows it.
pub struct Takes;

impl<S> Play<S, Option<Mark>> for Takes {
    ghost then = { Found };
}

/// A slot's word becomes 0: the slot that was taken last is given back.
pub struct GivesBack;

impl<S> Play<S, Option<Mark>> for GivesBack {
    ghost then = { Puts };
}

/// The board's number is read.
pub struct Reads;

impl<S> Play<S, Option<Mark>> for Reads {
    ghost then = { IsNumber };
}

/// Both know the number, and the one goes on to hold what it held.
pub struct Halves;

impl Split<Option<Mark>> for Halves {
    ghost use Rattle.shared_board.specs.Standing.{emptied};

    ghost left = { λ v. v };

    ghost right = { emptied };
}

impl Join<Option<Mark>> for Halves {
    ghost use Rattle.std.specs.Prelude.{None};

    ghost both = { λ v w. v };

    ghost spent = { None };
}

pub type Slots<T> = Table<Option<T>, Option<Mark>, u64, Standing, Global>;

pub type SharedSlots<T> = Shared<Option<T>, Option<Mark>, u64, Standing>;

pub type SlotSeat<T> = Seat<Option<T>, Option<Mark>>;
