//! The command `make`: a made case, or the summary of its search.
ghost use Rattle.std.specs.Int.{IsInRange};
ghost use Rattle.std.specs.Prelude.{◌≡◌, ◌≤◌, length, true, IfOk};
ghost use Rattle.case_maker.specs.MadeCase.{made_case};
ghost use Rattle.case_maker.specs.SummaryLine.{summary_line};
ghost use Rattle.lowfare.specs.Answered.{HasAnswer};
ghost use Rattle.lowfare.specs.Inputs.{most_bytes};
ghost use Rattle.lowfare.specs.Made.{MakesCase, SumsUp, default_budget, summary_of};
ghost use Rattle.lowfare.specs.Makes.{IsEnd};

use crate::Status;
use crate::case_search::{Searched, search_of};
use crate::limits::tell_limits;
use crate::outcomes::{Outcome, too_large};
use case_maker::{Summary, made_cases_are_short, made_cases_are_taken, make, push_summary};
use certificate::one_failure;
use certificate_check::{Verdict, check};
use fare_law::{List, Mem};
use residual_keys::one_size;
use search_core::Answer;
use std::alloc::Global;
use whole_case::SearchCase;

/// How many residuals the search of a summary may reach.
const DEFAULT_BUDGET: u32 = 100_000;

/// What `make` makes of a seed and a size, without any input: the made case, or the summary of its search.
pub(crate) fn made(alloc: Global, seed: u32, size: u8, is_summary: bool) -> Result<Outcome, Mem>
    requires { IsInRange 1 100 size }
    ensures makes { IfOk result (λ o. MakesCase seed size is_summary o.status o.text) }
    ensures ends { IfOk result (λ o. IsEnd o.status) }
{
    made_cases_are_short();
    let text = make(alloc, seed, u32::from(size))?;
    if is_summary {
        summarized(alloc, seed, size, text)
    } else {
        Ok(Outcome {
            status: Status::Done,
            text,
        })
    }
}

/// What a search of the made case comes to.
fn summarized(alloc: Global, seed: u32, size: u8, bytes: List<u8>) -> Result<Outcome, Mem>
    requires range { IsInRange 1 100 size }
    requires made { bytes ≡ made_case seed size }
    requires fits { length bytes ≤ most_bytes }
    ensures makes { IfOk result (λ o. MakesCase seed size true o.status o.text) }
    ensures ends { IfOk result (λ o. IsEnd o.status) }
{
    made_cases_are_taken();
    let searched = search_of(alloc, bytes, None, DEFAULT_BUDGET, None)?;
    match searched {
        Searched::Answered { found, answer } => summed(alloc, seed, size, &found, &answer),
        Searched::Beyond => too_large(alloc),
        Searched::NoCase(_) => unreachable!(),
    }
}

/// The summary of a made case, whose certificate is checked.
fn summed(
    alloc: Global,
    seed: u32,
    size: u8,
    found: &SearchCase,
    answer: &Answer,
) -> Result<Outcome, Mem>
    requires { HasAnswer default_budget found.now answer.now }
    ensures status { IfOk result (λ o. o.status ≡ Status.Done) }
    ensures text { IfOk result (λ o. SumsUp seed size found.now o.text) }
{
    tell_limits(&found.book, &found.request);
    one_size();
    one_failure();
    let verdict = check(alloc, &found.book, &found.request, &answer.certificate)?;
    match verdict {
        Verdict::Yes => {}
        Verdict::No { .. } => unreachable!(),
    }
    let text = summary_text(alloc, &summary_of(seed, size, found, answer))?;
    Ok(Outcome {
        status: Status::Done,
        text,
    })
}

/// What is told of a made case and of the answer of its search.
fn summary_of(seed: u32, size: u8, found: &SearchCase, answer: &Answer) -> Summary
    ensures { result ≡ summary_of seed size found.now answer.now }
{
    Summary {
        seed,
        size: u32::from(size),
        flights: found.book.timetable().schedule().flights().len(),
        residuals: answer.certificate.rows.len(),
        tickets: answer.tickets.len(),
        cheapest: answer.tickets.as_slice().first().map(|ticket| ticket.price),
    }
}

/// The line of a summary.
fn summary_text(alloc: Global, summary: &Summary) -> Result<List<u8>, Mem>
    ensures { IfOk result (λ text. text ≡ summary_line summary.now) }
{
    let mut text = Vec::new(alloc);
    push_summary(&mut text, summary)?;
    Ok(List::from_vec(text))
}
