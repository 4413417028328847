//! The command line that the words are.
ghost use Rattle.std.specs.Prelude.{◌≡◌, ◌↔◌, map, not, string_bytes, IfErr, IfOk, IsErrOf, IsTrue};
ghost use Rattle.lowfare.specs.Lines.{AreLine, Asks, HasRange, IsRun, IsServe};

use fare_law::Mem;
use program_words::{Command, WordsFault, read_words};
use std::alloc::Global;

/// The command line that the words are, of a command that `run` carries. It answers `Usage` exactly where they are none.
#[tactic(auto, using(crate::proofs::Ranges::line_ranged))]
pub(crate) fn asked(alloc: Global, words: &[String]) -> Result<Command, WordsFault>
    ensures line { IfOk result (Asks IsRun (map string_bytes words.now)) }
    ensures range { IfOk result HasRange }
    ensures usage { IsErrOf result WordsFault.Usage → AreLine IsRun (map string_bytes words.now) → ⊥ }
{
    let command = read_words(alloc, words)?;
    if is_of_serve(&command) {
        Err(WordsFault::Usage)
    } else {
        Ok(command)
    }
}

/// The command line of `serve` that the words are. It answers `Usage` exactly where they are none.
#[tactic(auto, using(crate::proofs::Ranges::line_ranged))]
pub(crate) fn asked_to_serve(alloc: Global, words: &[String]) -> Result<Command, WordsFault>
    ensures usage { IsErrOf result WordsFault.Usage → AreLine IsServe (map string_bytes words.now) → ⊥ }
    ensures line { IfOk result (Asks IsServe (map string_bytes words.now)) }
    ensures range { IfOk result HasRange }
{
    let command = read_words(alloc, words)?;
    if is_of_serve(&command) {
        Ok(command)
    } else {
        Err(WordsFault::Usage)
    }
}

/// Whether the words are a command line of `serve`.
pub fn is_serve(alloc: Global, words: &[String]) -> Result<bool, Mem>
    ensures { IfOk result (λ b. IsTrue b ↔ AreLine IsServe (map string_bytes words.now)) }
{
    match asked_to_serve(alloc, words) {
        Ok(_) => Ok(true),
        Err(WordsFault::Usage) => Ok(false),
        Err(WordsFault::Mem) => Err(Mem),
    }
}

fn is_of_serve(command: &Command) -> bool
    ensures serve { IsTrue result ↔ IsServe command.now }
    ensures run { IsTrue (not result) ↔ IsRun command.now }
{
    matches!(command, Command::Serve { .. })
}
