//! A law for the proofs of the top calls. It has no code.
ghost use Rattle.std.specs.Prelude.{◌≡◌, ℕ, List as Bytes};
ghost use Rattle.lowfare.specs.Makes.{Owes};
ghost use Rattle.lowfare.specs.declared.status.Status.{Status as Due};
ghost use Rattle.program_words.specs.declared.commands.Command.{Command as Asked};

use certificate::one_failure;
use whole_case::{
    one_calendar_case, one_check_case, one_search_case, one_serve_case, one_verdict_case,
};

/// Of one input a command owes one status.
pub(crate) fn one_status_is_owed()
    ensures { (command : Asked) (bytes : Bytes ℕ) (status due : Due) → Owes command bytes status → Owes command bytes due → status ≡ due }
{
    one_search_case();
    one_check_case();
    one_serve_case();
    one_calendar_case();
    one_verdict_case();
    one_failure();
}
