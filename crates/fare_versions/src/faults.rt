//! Why a clerk publishes nothing.
ghost use Rattle.std.specs.Prelude.{◌≡◌};
ghost use Rattle.fare_versions.specs.Filed.{fault_of};
ghost use Rattle.fare_versions.specs.declared.faults.FileFault.TheVariants.{Mem as OutOfMemory};

use fare_book::BookFault;
use fare_law::Refused;
use std::alloc::{AllocError, AllocFailed};

/// Why a filing isn't published.
#[derive(Clone, Copy, PartialEq, Eq, Debug)]
pub enum FileFault {
    /// The filing has a fault.
    Refused(Refused),
    /// Want of memory.
    Mem,
}

impl From<BookFault> for FileFault {
    ghost from_gives = { λ fault e. e ≡ fault_of fault };

    fn from(fault: BookFault) -> FileFault {
        match fault {
            BookFault::Refused(refused) => FileFault::Refused(refused),
            BookFault::Mem => FileFault::Mem,
        }
    }
}

impl From<AllocError> for FileFault {
    ghost from_gives = { λ _ e. e ≡ OutOfMemory };

    fn from(_error: AllocError) -> FileFault {
        FileFault::Mem
    }
}

impl<T: Drop> From<AllocFailed<T>> for FileFault {
    ghost from_gives = { λ _ e. e ≡ OutOfMemory };

    fn from(_error: AllocFailed<T>) -> FileFault {
        FileFault::Mem
    }
}
