//! Why a script isn't read.
ghost use Rattle.std.specs.Prelude.{◌≡◌};
ghost use Rattle.script_text.specs.declared.faults.ScriptFault.TheVariants.{Mem as OutOfMemory};

use fare_law::Mem;

/// Why a script isn't read, in the order of judgement.
#[derive(Clone, Copy, PartialEq, Eq, Debug)]
pub enum ScriptFault {
    /// The line of this number isn't of the form of a script line; 0 where there is no line.
    Script { line: u32 },
    /// Memory ran out.
    Mem,
}

impl From<Mem> for ScriptFault {
    ghost from_gives = { λ _ fault. fault ≡ OutOfMemory };

    fn from(_mem: Mem) -> ScriptFault {
        ScriptFault::Mem
    }
}
