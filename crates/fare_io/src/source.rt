//! Where bytes come from.
ghost use Rattle.std.specs.Prelude.{ℕ, List, Option};
ghost use Rattle.std.specs.Io.{ReadsAtMost};
ghost use Rattle.std.specs.Io.KnownBytes.{ReadConsumes};
ghost use Rattle.fare_io.specs.Counts.{FailsWithCause};

/// The answer of a read or a write that failed.
#[derive(Clone, Copy, Debug, PartialEq, Eq)]
pub struct Failed;

/// A source of bytes.
pub trait Source {
    // The bytes that are still to come, where they are known.
    ghost left: { Self → Option (List ℕ) };

    // How many reads failed. The count stays at the last value of a `u64` once it is there.
    ghost faults: { Self → ℕ };

    /// Reads some of the bytes that are still to come into the front of the buffer, and says how
    /// many. `Ok(0)` for a buffer that isn't empty is the end. After a fault no byte is gone.
    fn read(&mut self, buf: &mut [u8]) -> Result<usize, Failed>
        ensures bound { ReadsAtMost result buf.new }
        ensures bytes { ReadConsumes (left self.old) (left self.new) result buf.new }
        ensures cause { FailsWithCause (faults self.old) (faults self.new) result };
}
