//! The command `search`: the best tickets of a case, with the certificate of their search.
ghost use Rattle.std.specs.Int.{IsInRange};
ghost use Rattle.std.specs.Prelude.{◌≡◌, ◌≤◌, ◌<◌, ◌^◌, length, IfOk, IfSome};
ghost use Rattle.lowfare.specs.Inputs.{most_bytes};
ghost use Rattle.lowfare.specs.Makes.{IsEnd, Makes};
ghost use Rattle.lowfare.specs.Answered.{HasAnswer};
ghost use Rattle.lowfare.specs.Searches.{TellsBest};
ghost use Rattle.program_words.specs.declared.commands.Command.TheVariants.{Search};

use crate::Status;
use crate::case_search::{Searched, search_of};
use crate::limits::tell_limits;
use crate::outcomes::{Outcome, refused, too_large};
use answer_text::push_answer_text;
use certificate_text::push_cert_text;
use fare_law::{List, Mem};
use search_check::search_is_accepted;
use search_core::Answer;
use std::alloc::Global;
use whole_case::SearchCase;

/// What a search makes of the bytes of its input: the best tickets of their case with the certificate; that more
/// residuals are reached than the budget; or the first refusal.
pub(crate) fn searched(
    alloc: Global,
    bytes: List<u8>,
    best: Option<u16>,
    budget: u32,
    at: Option<u32>,
) -> Result<Outcome, Mem>
    requires best { IfSome best (IsInRange 1 1000) }
    requires fits { length bytes ≤ most_bytes }
    ensures makes { IfOk result (λ o. Makes (Search best budget at) bytes o.status o.text) }
    ensures ends { IfOk result (λ o. IsEnd o.status) }
{
    let searched = search_of(alloc, bytes, best, budget, at)?;
    match searched {
        Searched::Answered { found, answer } => done(alloc, &found, &answer, budget),
        Searched::Beyond => too_large(alloc),
        Searched::NoCase(refusal) => refused(alloc, &refusal),
    }
}

/// The version of a case, the answer and the certificate.
fn done(alloc: Global, found: &SearchCase, answer: &Answer, budget: u32) -> Result<Outcome, Mem>
    requires fits { budget < 2 ^ 32 }
    requires answer { HasAnswer budget found.now answer.now }
    ensures status { IfOk result (λ o. o.status ≡ Status.Done) }
    ensures text { IfOk result (λ o. TellsBest found.now o.text) }
{
    tell_limits(&found.book, &found.request);
    search_is_accepted(found);
    let number = answer.number;
    let mut text = format!(in alloc; "version {number}\n")?.into_bytes();
    push_answer_text(&mut text, &found.book, answer.tickets.as_slice())?;
    push_cert_text(alloc, &mut text, &answer.certificate)?;
    Ok(Outcome {
        status: Status::Done,
        text: List::from_vec(text),
    })
}
