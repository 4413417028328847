//! Why seat rows are refused.
ghost use Rattle.std.specs.Prelude.{◌≡◌};
ghost use Rattle.seat_classes.specs.declared.faults.SeatFault.TheVariants.{Mem as OutOfMemory};
ghost use Rattle.seat_classes.specs.declared.faults.SeatPut.TheVariants.{Mem as NoMemory};

use std::alloc::{AllocError, AllocFailed};

/// Why a list of rows is refused.
#[derive(Clone, Copy, PartialEq, Eq, Debug)]
pub enum SeatFault {
    /// The first row, by its line, that has the carrier, number, origin and date field of an
    /// earlier one.
    Twice { line: u32 },
    /// Want of memory.
    Mem,
}

/// Why one row is refused.
#[derive(Clone, Copy, PartialEq, Eq, Debug)]
pub enum SeatPut {
    /// It would be a new row beside `MOST_SEAT_ROWS`.
    Full = 1,
    /// Want of memory.
    Mem = 2,
}

impl From<AllocError> for SeatFault {
    ghost from_gives = { λ _ e. e ≡ OutOfMemory };

    fn from(_error: AllocError) -> SeatFault {
        SeatFault::Mem
    }
}

impl<T: Drop> From<AllocFailed<T>> for SeatFault {
    ghost from_gives = { λ _ e. e ≡ OutOfMemory };

    fn from(_error: AllocFailed<T>) -> SeatFault {
        SeatFault::Mem
    }
}

impl<T: Drop> From<AllocFailed<T>> for SeatPut {
    ghost from_gives = { λ _ e. e ≡ NoMemory };

    fn from(_error: AllocFailed<T>) -> SeatPut {
        SeatPut::Mem
    }
}
