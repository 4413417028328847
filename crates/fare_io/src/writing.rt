//! Writing a whole text.
ghost use Rattle.std.specs.Prelude.{◌≡◌, ◌<◌, ◌≤◌, length, slice_range, IfOk, OnOk, OnErr, IsErrOf};
ghost use Rattle.std.specs.Io.KnownBytes.{Appends, Keeps};
ghost use Rattle.fare_io.specs.Counts.{Rose};
ghost use Rattle.fare_io.specs.Streams.{AppendsFront};

use crate::Sink;

/// Why a text wasn't written whole.
#[derive(Clone, Copy, Debug, PartialEq, Eq)]
pub enum OutFault {
    /// A write failed.
    Failed = 1,
    /// A write took nothing.
    Stuck = 2,
}

/// Writes the whole text. After a fault a front of the text was written.
#[tactic(auto, using(crate::proofs::Known::write_steps))]
pub fn write_all<K: Sink>(sink: &mut K, text: &[u8]) -> Result<(), OutFault>
    ensures whole { OnOk result (Appends (K.held sink.old) (K.held sink.new) text.now) }
    ensures front { OnErr result (AppendsFront (K.held sink.old) (K.held sink.new) text.now) }

    ensures faults_later { K.faults sink.old ≤ K.faults sink.new }
    ensures failed { IsErrOf result OutFault.Failed → Rose (K.faults sink.old) (K.faults sink.new) }

    ensures stalls_later { K.stalls sink.old ≤ K.stalls sink.new }
    ensures stuck { IsErrOf result OutFault.Stuck → Rose (K.stalls sink.old) (K.stalls sink.new) }
    ensures stalls_same { OnOk result (K.stalls sink.new ≡ K.stalls sink.old) }
    ensures stalls_kept { IsErrOf result OutFault.Failed → K.stalls sink.new ≡ K.stalls sink.old }
{
    let mut at = 0;
    while at < text.len() {
        at = write_piece(sink, text, at)?;
    }
    Ok(())
}

// Writes a piece of the text from `at` on, and says where the rest begins.
#[tactic(auto, using(crate::proofs::Known::rest_is))]
fn write_piece<K: Sink>(sink: &mut K, text: &[u8], at: usize) -> Result<usize, OutFault>
    requires { at < length text.now }
    ensures grows { IfOk result (λ end. at < end) }
    ensures within { IfOk result (λ end. end ≤ length text.now) }
    ensures piece { IfOk result (λ end. Appends (K.held sink.old) (K.held sink.new) (slice_range text.now at end)) }
    ensures stays { OnErr result (Keeps (K.held sink.old) (K.held sink.new)) }

    ensures faults_later { K.faults sink.old ≤ K.faults sink.new }
    ensures failed { IsErrOf result OutFault.Failed → Rose (K.faults sink.old) (K.faults sink.new) }

    ensures stalls_later { K.stalls sink.old ≤ K.stalls sink.new }
    ensures stuck { IsErrOf result OutFault.Stuck → Rose (K.stalls sink.old) (K.stalls sink.new) }
    ensures stalls_same { OnOk result (K.stalls sink.new ≡ K.stalls sink.old) }
    ensures stalls_kept { IsErrOf result OutFault.Failed → K.stalls sink.new ≡ K.stalls sink.old }
{
    match sink.write(&text[at..]) {
        Ok(0) => Err(OutFault::Stuck),
        Ok(count) => Ok(at + count),
        Err(_) => Err(OutFault::Failed),
    }
}
