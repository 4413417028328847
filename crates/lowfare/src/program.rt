//! The top call of all commands but `serve`.
ghost use Rattle.std.specs.Io.KnownBytes.{Appends};
ghost use Rattle.std.specs.Prelude.{◌≡◌, ◌≢◌, ◌⊎◌, ◌+◌, map, string_bytes};
ghost use Rattle.fare_io.specs.Counts.{Rose};
ghost use Rattle.fare_io.specs.Streams.{AppendsFront, GivesAtMost};
ghost use Rattle.lowfare.specs.Complete.{IsComplete, NoneRose};
ghost use Rattle.lowfare.specs.Inputs.{most_bytes};
ghost use Rattle.lowfare.specs.Lines.{AskForInput, IsRun};
ghost use Rattle.lowfare.specs.Says.{Says};

use crate::Status;
use crate::inputs::input_of;
use crate::laws::one_status_is_owed;
use crate::outcomes::outcome_of;
use crate::words::asked;
use fare_io::{InFault, Sink, Source, write_all};
use fare_law::Mem;
use program_words::WordsFault;
use std::alloc::Global;

pub(crate) const USAGE: &[u8] = b"usage: lowfare search|check|make|serve|calendar|verdict\n";

pub(crate) const TOO_LONG: &[u8] = b"too long\n";

/// Runs the command that the words ask for: reads its input from the source to the end, makes the whole text, and
/// only then writes it to the sink. Words that are no command line, and those of `make`, leave the source as it is.
pub fn run<S: Source, K: Sink>(
    alloc: Global,
    words: &[String],
    source: &mut S,
    sink: &mut K,
) -> Status
    ensures says { Says IsRun result (map string_bytes words.now) (S.left source.old) (S.left source.new) (K.held sink.old) (K.held sink.new)
        (S.faults source.old) (S.faults source.new) (K.faults sink.old) (K.faults sink.new) (K.stalls sink.old) (K.stalls sink.new) }
    ensures unread { (AskForInput IsRun (map string_bytes words.now) → ⊥) → source.new ≡ source.old }
    // Whatever the status, no byte is read past the one that is too many.
    ensures gives { GivesAtMost (S.left source.old) (S.left source.new) (most_bytes + 1) }
    // Where no count rose, the status is the one that is due, unless memory ran out.
    ensures complete { NoneRose (S.faults source.old) (S.faults source.new) (K.faults sink.old) (K.faults sink.new) (K.stalls sink.old) (K.stalls sink.new)
        → IsComplete IsRun result (map string_bytes words.now) (S.left source.old) }
{
    one_status_is_owed();
    let command = match asked(alloc, words) {
        Ok(command) => command,
        Err(WordsFault::Usage) => return finish(sink, USAGE, Status::Usage),
        Err(WordsFault::Mem) => return Status::OutOfMemory,
    };
    let bytes = match input_of(alloc, &command, source) {
        Ok(bytes) => bytes,
        Err(InFault::ReadFault) => return Status::ReadFault,
        Err(InFault::TooLong) => return finish(sink, TOO_LONG, Status::TooLong),
        Err(InFault::Mem) => return Status::OutOfMemory,
    };
    match outcome_of(alloc, &command, bytes) {
        Ok(made) => finish(sink, made.text.as_slice(), made.status),
        Err(Mem) => Status::OutOfMemory,
    }
}

/// Writes the last text.
pub(crate) fn finish<K: Sink>(sink: &mut K, text: &[u8], status: Status) -> Status
    requires { status ≢ Status.WriteFault }
    ensures whole { result ≢ Status.WriteFault → (result ≡ status) × Appends (K.held sink.old) (K.held sink.new) text.now }
    ensures front { result ≡ Status.WriteFault → AppendsFront (K.held sink.old) (K.held sink.new) text.now }
    ensures cause { result ≡ Status.WriteFault → Rose (K.faults sink.old) (K.faults sink.new) ⊎ Rose (K.stalls sink.old) (K.stalls sink.new) }
{
    match write_all(sink, text) {
        Ok(()) => status,
        Err(_) => Status::WriteFault,
    }
}
