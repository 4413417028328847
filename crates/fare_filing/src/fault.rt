//! Why a filing isn't read.
ghost use Rattle.std.specs.Prelude.{◌≡◌};
ghost use Rattle.fare_filing.specs.declared.fault.FilingFault.TheVariants.{Mem as OutOfMemory};

use fare_law::Mem;
use rule_text::RuleFault;
use std::alloc::AllocError;

/// Why a filing isn't read. The first action with a fault decides; actions are numbered from 1.
#[derive(Clone, Copy, PartialEq, Eq, Debug)]
pub enum FilingFault {
    /// The bytes are no JSON text.
    Syntax,
    /// The action isn't of its form; action 0 is the filing's object, or its list of more than
    /// `MOST_ACTIONS` actions.
    Shape { action: u32 },
    /// The action puts a rule that has a fault.
    Rule { action: u32, fault: RuleFault },
    /// Memory ran out.
    Mem,
}

impl From<Mem> for FilingFault {
    ghost from_gives = { λ _ fault. fault ≡ OutOfMemory };

    fn from(_mem: Mem) -> FilingFault {
        FilingFault::Mem
    }
}
