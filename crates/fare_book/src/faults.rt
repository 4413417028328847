//! Why a book takes no filing.
ghost use Rattle.std.specs.Prelude.{◌≡◌};
ghost use Rattle.fare_book.specs.declared.faults.BookFault.TheVariants.{Mem as OutOfMemory};

use fare_law::Refused;
use std::alloc::{AllocError, AllocFailed};

/// Why a filing isn't taken.
#[derive(Clone, Copy, PartialEq, Eq, Debug)]
pub enum BookFault {
    /// The filing has a fault.
    Refused(Refused),
    /// Want of memory.
    Mem,
}

impl From<fare_law::Mem> for BookFault {
    ghost from_gives = { λ _ e. e ≡ OutOfMemory };

    fn from(_error: fare_law::Mem) -> BookFault {
        BookFault::Mem
    }
}

impl From<AllocError> for BookFault {
    ghost from_gives = { λ _ e. e ≡ OutOfMemory };

    fn from(_error: AllocError) -> BookFault {
        BookFault::Mem
    }
}

impl<T: Drop> From<AllocFailed<T>> for BookFault {
    ghost from_gives = { λ _ e. e ≡ OutOfMemory };

    fn from(_error: AllocFailed<T>) -> BookFault {
        BookFault::Mem
    }
}
