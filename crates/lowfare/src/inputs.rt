//! The input of a command.
ghost use Rattle.std.specs.Prelude.{◌≡◌, ◌≤◌, ◌+◌, ◌↔◌, length, IfOk, IsErrOf, IsTrue};
ghost use Rattle.fare_io.specs.Counts.{Rose};
ghost use Rattle.fare_io.specs.Streams.{GivesAtMost, ReadsPast};
ghost use Rattle.lowfare.specs.Inputs.{IsInput, most_bytes};
ghost use Rattle.lowfare.specs.Lines.{TakesInput};

use fare_io::{InFault, Source, read_all};
use fare_law::List;
use program_words::Command;
use std::alloc::Global;

/// The most bytes that an input may have.
const MOST_BYTES: usize = 67_108_864;

/// The bytes that the source has left, for a command that reads an input. For one that reads none the source
/// stays as it is, and the input is empty.
#[tactic(auto, using(crate::proofs::Unread::gave_nothing))]
pub(crate) fn input_of<S: Source>(
    alloc: Global,
    command: &Command,
    source: &mut S,
) -> Result<List<u8>, InFault>
    ensures input { IfOk result (IsInput command.now (S.left source.old) (S.left source.new)) }
    ensures fits { IfOk result (λ bytes. length bytes ≤ most_bytes) }
    ensures fault { IsErrOf result InFault.ReadFault → TakesInput command.now × Rose (S.faults source.old) (S.faults source.new) }
    ensures long { IsErrOf result InFault.TooLong → TakesInput command.now × ReadsPast (S.left source.old) (S.left source.new) most_bytes }
    ensures unread { (TakesInput command.now → ⊥) → source.new ≡ source.old }
    // Whatever the answer, no byte is read past the one that is too many.
    ensures gives { GivesAtMost (S.left source.old) (S.left source.new) (most_bytes + 1) }
{
    if takes_input(command) {
        read_all(alloc, source, MOST_BYTES)
    } else {
        Ok(List::new(alloc))
    }
}

fn takes_input(command: &Command) -> bool
    ensures { IsTrue result ↔ TakesInput command.now }
{
    !matches!(command, Command::Make { .. })
}
