//! How a run ended.
ghost use Rattle.std.specs.Prelude.{◌≡◌};
ghost use Rattle.lowfare.specs.Numbers.{number_of};

/// How a run ended. The numbers are the exit statuses of the program.
#[derive(Clone, Copy, PartialEq, Eq, Debug)]
pub enum Status {
    /// The command was done, and its text was written.
    Done,
    /// The input is no lawful case.
    Refused,
    /// The words are no command line; nothing was read.
    Usage,
    /// The source failed; nothing was written.
    ReadFault,
    /// The sink failed, or took nothing; a front of the text was written.
    WriteFault,
    /// Memory was wanting; nothing was written.
    OutOfMemory,
    /// More residuals are reachable than the budget.
    TooLarge,
    /// The certificate fails a check.
    No,
    /// The source gave more than 67,108,864 bytes.
    TooLong,
}

impl Status {
    /// The exit status of the program, 0 to 8.
    pub fn number(self) -> u8
        ensures { result ≡ number_of self }
    {
        match self {
            Status::Done => 0,
            Status::Refused => 1,
            Status::Usage => 2,
            Status::ReadFault => 3,
            Status::WriteFault => 4,
            Status::OutOfMemory => 5,
            Status::TooLarge => 6,
            Status::No => 7,
            Status::TooLong => 8,
        }
    }
}
