//! The top call of `serve`.
ghost use Rattle.std.specs.Prelude.{◌≡◌, ◌+◌, ◌≤◌, length, map, string_bytes, IfOk};
ghost use Rattle.fare_io.specs.Streams.{GivesAtMost};
ghost use Rattle.lowfare.specs.Complete.{IsComplete, NoneRose};
ghost use Rattle.lowfare.specs.Inputs.{most_bytes};
ghost use Rattle.lowfare.specs.Lines.{AskForInput, HasRange, IsServe};
ghost use Rattle.lowfare.specs.Makes.{IsEnd, Makes};
ghost use Rattle.lowfare.specs.Says.{Says};

use crate::Status;
use crate::inputs::input_of;
use crate::laws::one_status_is_owed;
use crate::outcomes::Outcome;
use crate::program::{TOO_LONG, USAGE, finish};
use crate::service::case_served;
use crate::words::asked_to_serve;
use fare_io::{InFault, Sink, Source};
use fare_law::{Gate, List, Mem};
use program_words::{Command, WordsFault};
use std::alloc::Global;
use std::sync::Wait;
use std::thread::Threads;

/// Serves the case that the source has: reads it to the end, lets desks search by its script, each in a thread of its
/// own, while its later filings are filed, makes the whole text, and only then writes it to the sink. Words that are no
/// command line of `serve` leave the source as it is. A search that is too large and a later filing that the book
/// refuses are told in the text, and the run goes on.
///
/// The contract is that of `run`, for this command, where the call returns: it starts threads and waits for them, and
/// no clause says that it ends. Gates are called with 0 before each later filing, with a desk's number before each node
/// that it builds and after each of its answers.
pub fn serve<S, K, G, R>(
    rt: &R,
    alloc: Global,
    words: &[String],
    source: &mut S,
    sink: &mut K,
    gate: &G,
) -> Status
where
    S: Source,
    K: Sink,
    G: Gate + Sync,
    R: Threads + Wait + Sync,
    ensures says { Says IsServe result (map string_bytes words.now) (S.left source.old) (S.left source.new) (K.held sink.old) (K.held sink.new)
        (S.faults source.old) (S.faults source.new) (K.faults sink.old) (K.faults sink.new) (K.stalls sink.old) (K.stalls sink.new) }
    ensures unread { (AskForInput IsServe (map string_bytes words.now) → ⊥) → source.new ≡ source.old }
    // Whatever the status, no byte is read past the one that is too many.
    ensures gives { GivesAtMost (S.left source.old) (S.left source.new) (most_bytes + 1) }
    // Where no count rose, the status is the one that is due, unless memory ran out.
    ensures complete { NoneRose (S.faults source.old) (S.faults source.new) (K.faults sink.old) (K.faults sink.new) (K.stalls sink.old) (K.stalls sink.new)
        → IsComplete IsServe result (map string_bytes words.now) (S.left source.old) }
{
    one_status_is_owed();
    let command = match asked_to_serve(alloc, words) {
        Ok(command) => command,
        Err(WordsFault::Usage) => return finish(sink, USAGE, Status::Usage),
        Err(WordsFault::Mem) => return Status::OutOfMemory,
    };
    let bytes = match input_of(alloc, &command, source) {
        Ok(bytes) => bytes,
        Err(InFault::ReadFault) => return Status::ReadFault,
        Err(InFault::TooLong) => return finish(sink, TOO_LONG, Status::TooLong),
        Err(InFault::Mem) => return Status::OutOfMemory,
    };
    match outcome_of_serve(rt, alloc, &command, bytes, gate) {
        Ok(made) => finish(sink, made.text.as_slice(), made.status),
        Err(Mem) => Status::OutOfMemory,
    }
}

/// What `serve` makes of the bytes of its input.
fn outcome_of_serve<G, R>(
    rt: &R,
    alloc: Global,
    command: &Command,
    bytes: List<u8>,
    gate: &G,
) -> Result<Outcome, Mem>
where
    G: Gate + Sync,
    R: Threads + Wait + Sync,
    requires serve { IsServe command.now }
    requires range { HasRange command.now }
    requires fits { length bytes ≤ most_bytes }
    ensures makes { IfOk result (λ o. Makes command.now bytes o.status o.text) }
    ensures ends { IfOk result (λ o. IsEnd o.status) }
{
    match *command {
        Command::Serve { best, budget } => case_served(rt, alloc, bytes, best, budget, gate),
        _ => unreachable!(),
    }
}
