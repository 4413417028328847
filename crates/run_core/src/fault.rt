//! Why an event is not taken.
ghost use Rattle.std.specs.Prelude.{◌≡◌};
ghost use Rattle.run_core.specs.Causes.{fault_of};
ghost use Rattle.run_core.specs.declared.fault.StepFault.TheVariants.{Mem as OutOfMemory};

use fare_book::BookFault;
use fare_law::{Refused, Why};
use std::alloc::{AllocError, AllocFailed};

/// Why an event is not taken; of several reasons the first that is listed here.
#[derive(Clone, Copy, PartialEq, Eq, Debug)]
pub enum StepFault {
    /// The world has no desk of this number.
    NoDesk,
    /// The desk has not looked since its last answer.
    NotNow,
    /// The filing has a fault in the last version.
    BadFiling(Refused),
    /// The request is none.
    BadSearch(Why),
    /// Want of memory.
    Mem,
}

impl From<BookFault> for StepFault {
    ghost from_gives = { λ fault e. e ≡ fault_of fault };

    fn from(fault: BookFault) -> StepFault {
        match fault {
            BookFault::Refused(refused) => StepFault::BadFiling(refused),
            BookFault::Mem => StepFault::Mem,
        }
    }
}

impl From<fare_law::Mem> for StepFault {
    ghost from_gives = { λ _ e. e ≡ OutOfMemory };

    fn from(_error: fare_law::Mem) -> StepFault {
        StepFault::Mem
    }
}

impl From<AllocError> for StepFault {
    ghost from_gives = { λ _ e. e ≡ OutOfMemory };

    fn from(_error: AllocError) -> StepFault {
        StepFault::Mem
    }
}

impl<T: Drop> From<AllocFailed<T>> for StepFault {
    ghost from_gives = { λ _ e. e ≡ OutOfMemory };

    fn from(_error: AllocFailed<T>) -> StepFault {
        StepFault::Mem
    }
}
