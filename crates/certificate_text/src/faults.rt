//! Why a certificate isn't read.
ghost use Rattle.std.specs.Prelude.{◌≡◌};
ghost use Rattle.certificate_text.specs.declared.faults.CertFault.TheVariants.{Mem as OutOfMemory};

use fare_law::Mem;

/// Why a certificate isn't read. Lines are numbered from 1; a missing line has the number after the last.
#[derive(Clone, Copy, PartialEq, Eq, Debug)]
pub enum CertFault {
    /// The line isn't of the form that is due there, is missing, or follows the last one.
    Syntax { line: u32 },
    /// There are fewer or more answers or rows than the count before them says.
    Count { line: u32 },
    /// Memory ran out.
    Mem,
}

impl From<Mem> for CertFault {
    ghost from_gives = { λ _ fault. fault ≡ OutOfMemory };

    fn from(_mem: Mem) -> CertFault {
        CertFault::Mem
    }
}
