//! What commands make of their input.
ghost use Rattle.std.specs.Prelude.{◌≡◌, ◌≤◌, codes, length, IfOk};
ghost use Rattle.lowfare.specs.Inputs.{most_bytes};
ghost use Rattle.lowfare.specs.Lines.{HasRange, IsRun};
ghost use Rattle.lowfare.specs.Makes.{IsEnd, Makes};
ghost use Rattle.whole_case.specs.Texts as Texts;

use crate::Status;
use crate::calendars::days_priced;
use crate::checking::checked;
use crate::making::made;
use crate::searching::searched;
use crate::verdicts::ticket_judged;
use fare_calendar::Spans;
use fare_law::{List, Mem};
use program_words::Command;
use std::alloc::Global;
use whole_case::{Refusal, refusal_text};

/// A status with the text that is due.
#[derive(Drop)]
pub struct Outcome {
    pub status: Status,
    pub text: List<u8>,
}

/// What a command makes of the bytes of its input, any but `serve`. They are let go once their case is read.
pub(crate) fn outcome_of(alloc: Global, command: &Command, bytes: List<u8>) -> Result<Outcome, Mem>
    requires run { IsRun command.now }
    requires range { HasRange command.now }
    requires fits { length bytes ≤ most_bytes }
    ensures makes { IfOk result (λ o. Makes command.now bytes o.status o.text) }
    ensures ends { IfOk result (λ o. IsEnd o.status) }
{
    match *command {
        Command::Search { best, budget, at } => searched(alloc, bytes, best, budget, at),
        Command::Check { best, at } => checked(alloc, bytes, best, at),
        Command::Make {
            seed,
            size,
            is_summary,
        } => made(alloc, seed, size, is_summary),
        Command::Calendar {
            outs,
            backs,
            budget,
            at,
        } => days_priced(alloc, bytes, Spans { outs, backs }, budget, at),
        Command::Verdict { at } => ticket_judged(alloc, bytes, at),
        Command::Serve { .. } => unreachable!(),
    }
}

/// The first refusal of a case.
pub fn refused(alloc: Global, refusal: &Refusal) -> Result<Outcome, Mem>
    ensures status { IfOk result (λ o. o.status ≡ Status.Refused) }
    ensures text { IfOk result (λ o. o.text ≡ Texts.refusal_text refusal.now) }
{
    Ok(Outcome {
        status: Status::Refused,
        text: List::from_vec(refusal_text(alloc, refusal)?.into_bytes()),
    })
}

/// More residuals are reached than the budget.
pub fn too_large(alloc: Global) -> Result<Outcome, Mem>
    ensures status { IfOk result (λ o. o.status ≡ Status.TooLarge) }
    ensures text { IfOk result (λ o. o.text ≡ codes "too large\n") }
{
    Ok(Outcome {
        status: Status::TooLarge,
        text: List::from_vec(b"too large\n".to_vec(alloc)?),
    })
}
