//! Where bytes go.
ghost use Rattle.std.specs.Prelude.{ℕ, List, Option, length};
ghost use Rattle.std.specs.Io.{WritesAtMost};
ghost use Rattle.std.specs.Io.KnownBytes.{WriteAppends};
ghost use Rattle.fare_io.specs.Counts.{FailsWithCause, CountsStalls};

use crate::Failed;

/// A sink of bytes.
pub trait Sink {
    // The bytes that it holds, where they are known.
    ghost held: { Self → Option (List ℕ) };

    // How many writes failed. The count stays at the last value of a `u64` once it is there.
    ghost faults: { Self → ℕ };

    // How many writes took nothing of a piece that has bytes. It ends as `faults` does.
    ghost stalls: { Self → ℕ };

    /// Takes a front of the piece, and says how many bytes it took. After a fault it holds what it
    /// held before.
    fn write(&mut self, piece: &[u8]) -> Result<usize, Failed>
        ensures bound { WritesAtMost result piece.now }
        ensures bytes { WriteAppends (held self.old) (held self.new) result piece.now }
        ensures cause { FailsWithCause (faults self.old) (faults self.new) result }
        ensures stall { CountsStalls (stalls self.old) (stalls self.new) result (length piece.now) };
}
