//! Why words are no command line.
ghost use Rattle.std.specs.Prelude.{◌≡◌, ◌≢◌};
ghost use Rattle.clap.specs.Words.{kind_of};

use clap::Error;
use clap::error::ErrorKind;
use std::alloc::AllocError;

/// Why words give no command.
#[derive(Clone, Copy, PartialEq, Eq, Debug)]
pub enum WordsFault {
    /// They are no command line.
    Usage,
    /// Memory ran out.
    Mem,
}

impl WordsFault {
    /// What a failed parse comes to.
    pub(crate) fn of(error: &Error) -> WordsFault
        ensures { result ≡ WordsFault.Usage → kind_of error.now ≢ ErrorKind.OutOfMemory }
    {
        match error.kind() {
            ErrorKind::OutOfMemory => WordsFault::Mem,
            _ => WordsFault::Usage,
        }
    }
}

impl From<AllocError> for WordsFault {
    ghost use Rattle.program_words.specs.declared.faults.WordsFault.TheVariants.{Mem};

    ghost from_gives = { λ _ fault. fault ≡ Mem };

    fn from(_error: AllocError) -> WordsFault {
        WordsFault::Mem
    }
}
