//! Why a timetable is refused.
ghost use Rattle.std.specs.Prelude.{◌≡◌};
ghost use Rattle.schedule_book.specs.declared.faults.SchedFault.TheVariants.{Mem as OutOfMemory};

use std::alloc::{AllocError, AllocFailed};

/// The first row with a fault, by its line, place rows first; of several faults of a row the first
/// that is listed here.
#[derive(Clone, Copy, PartialEq, Eq, Debug)]
pub enum SchedFault {
    /// The place stands in an earlier row.
    PlaceTwice { line: u32 },
    /// A place of the flight has no row.
    UnknownPlace { line: u32 },
    /// The flight goes from a place to itself.
    SamePlace { line: u32 },
    /// The last day is before the first, or more than 365 days after it.
    BadPeriod { line: u32 },
    /// The arrival isn't later than the departure.
    ArrivesBefore { line: u32 },
    /// A dated flight of the same carrier, number, origin and local day stands already.
    Twice { line: u32 },
    /// There are more than `MOST_DATED_FLIGHTS` of them.
    TooMany { line: u32 },
    /// Want of memory.
    Mem,
}

impl From<fare_law::Mem> for SchedFault {
    ghost from_gives = { λ _ e. e ≡ OutOfMemory };

    fn from(_error: fare_law::Mem) -> SchedFault {
        SchedFault::Mem
    }
}

impl From<AllocError> for SchedFault {
    ghost from_gives = { λ _ e. e ≡ OutOfMemory };

    fn from(_error: AllocError) -> SchedFault {
        SchedFault::Mem
    }
}

impl<T: Drop> From<AllocFailed<T>> for SchedFault {
    ghost from_gives = { λ _ e. e ≡ OutOfMemory };

    fn from(_error: AllocFailed<T>) -> SchedFault {
        SchedFault::Mem
    }
}
