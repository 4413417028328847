//! The command `verdict`: whether a ticket is lawful, with its price, or all its breaches.
ghost use Rattle.std.specs.Prelude.{◌≡◌, ◌≢◌, ◌≤◌, [], length, IfOk};
ghost use Rattle.fare_law.specs.Lawful.{Lawful};
ghost use Rattle.lowfare.specs.Inputs.{most_bytes};
ghost use Rattle.lowfare.specs.Makes.{IsEnd, Makes};
ghost use Rattle.lowfare.specs.Verdicts.{TellsLawful};
ghost use Rattle.lowfare.specs.Verdicts as Verdicts;
ghost use Rattle.program_words.specs.declared.commands.Command.TheVariants.{Verdict};

use crate::Status;
use crate::cases::verdict_case;
use crate::limits::tell_limits;
use crate::outcomes::{Outcome, refused};
use fare_law::{List, Mem};
use fare_verdict::{Finding, push_findings_text, verdict};
use std::alloc::Global;
use ticket_whole::price;
use whole_case::{LoadFault, VerdictCase, spelled_requests_are_right};

/// What a verdict makes of the bytes of its input: that the ticket of their case is lawful, with its price; all its
/// breaches; or the first refusal.
pub(crate) fn ticket_judged(alloc: Global, bytes: List<u8>, at: Option<u32>) -> Result<Outcome, Mem>
    requires { length bytes ≤ most_bytes }
    ensures makes { IfOk result (λ o. Makes (Verdict at) bytes o.status o.text) }
    ensures ends { IfOk result (λ o. IsEnd o.status) }
{
    let found = match verdict_case(alloc, bytes, at) {
        Ok(found) => found,
        Err(LoadFault::Refused(refusal)) => return refused(alloc, &refusal),
        Err(LoadFault::Mem) => return Err(Mem),
    };
    spelled_requests_are_right();
    tell_limits(&found.book, &found.request);
    let findings = verdict(alloc, &found.ticket, &found.book, &found.request)?;
    let is_lawful = findings.len() == 0;
    if is_lawful {
        lawful(alloc, &found)
    } else {
        unlawful(alloc, findings.as_slice())
    }
}

/// That a ticket is lawful, with its price.
fn lawful(alloc: Global, found: &VerdictCase) -> Result<Outcome, Mem>
    requires { Lawful found.now.ticket found.now.book found.now.request }
    ensures status { IfOk result (λ o. o.status ≡ Status.Done) }
    ensures text { IfOk result (λ o. TellsLawful found.now o.text) }
{
    let Some(price) = price(&found.ticket, &found.book) else {
        unreachable!()
    };
    let text = format!(in alloc; "lawful price {price}\n")?;
    Ok(Outcome {
        status: Status::Done,
        text: List::from_vec(text.into_bytes()),
    })
}

/// All breaches of a ticket.
pub fn unlawful(alloc: Global, findings: &[Finding]) -> Result<Outcome, Mem>
    ensures status { IfOk result (λ o. o.status ≡ Status.Done) }
    ensures text { IfOk result (λ o. o.text ≡ Verdicts.breaches_text findings.now) }
{
    let count = findings.len();
    let mut text = format!(in alloc; "breaches {count}\n")?.into_bytes();
    push_findings_text(&mut text, findings)?;
    Ok(Outcome {
        status: Status::Done,
        text: List::from_vec(text),
    })
}
