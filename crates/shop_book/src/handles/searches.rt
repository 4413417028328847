//! What is asked of a book.
ghost use Rattle.std.specs.Prelude.{◌≡◌, ◌⊎◌};
ghost use Rattle.shop_book.specs.Told as Told;
ghost use Rattle.shop_book.specs.Told.{Asks, IsLong};
ghost use Rattle.shop_book.specs.Replies.{Checked, Judged, Priced, Searched};

use crate::handles::Handle;
use crate::handles::questions::{Question, ask};
use fare_calendar::Spans;
use std::alloc::Global;

/// Searches the book for a request. The text is that of the command `search`, the line of the request's refusal at
/// status 1, or `too large` at status 6. `best` replaces the number of tickets that the request asks for, where it
/// isn't 0. What `answer` held before is let go.
pub fn lowfare_search(
    alloc: Global,
    book: &mut Handle,
    request: &[u8],
    best: u32,
    budget: u32,
    answer: &mut Handle,
) -> u32
    ensures { Asks book.old book.new (λ b. Searched b (Told.best_of best) budget request.now) (IsLong request.now) result answer.new }
{
    let question = Question::Search(request, best_of(best), budget);
    ask(alloc, book, answer, &question)
}

/// Checks a certificate against the book and a request. The text is `yes` at status 0, the first check that fails at
/// status 7, or the line of a refusal at status 1. What `answer` held before is let go.
pub fn lowfare_check(
    alloc: Global,
    book: &mut Handle,
    request: &[u8],
    certificate: &[u8],
    answer: &mut Handle,
) -> u32
    ensures { Asks book.old book.new (λ b. Checked b request.now certificate.now) (IsLong request.now ⊎ IsLong certificate.now) result answer.new }
{
    ask(alloc, book, answer, &Question::Check(request, certificate))
}

/// Prices a request of two slices for so many days out and so many back. The text is that of the command `calendar`, or
/// the line of a refusal at status 1. What `answer` held before is let go.
pub fn lowfare_calendar(
    alloc: Global,
    book: &mut Handle,
    request: &[u8],
    outs: u8,
    backs: u8,
    budget: u32,
    answer: &mut Handle,
) -> u32
    ensures { Asks book.old book.new (λ b. Priced b (record { outs = outs; backs = backs }) budget request.now) (IsLong request.now) result answer.new }
{
    let spans = Spans { outs, backs };
    ask(
        alloc,
        book,
        answer,
        &Question::Calendar(request, spans, budget),
    )
}

/// Judges a ticket by the book and a request. The text is that of the command `verdict`, or the line of a refusal at
/// status 1. What `answer` held before is let go.
pub fn lowfare_verdict(
    alloc: Global,
    book: &mut Handle,
    request: &[u8],
    ticket: &[u8],
    answer: &mut Handle,
) -> u32
    ensures { Asks book.old book.new (λ b. Judged b request.now ticket.now) (IsLong ticket.now ⊎ IsLong request.now) result answer.new }
{
    ask(alloc, book, answer, &Question::Verdict(request, ticket))
}

/// The number of tickets that is asked for in place of the request's, if one is.
fn best_of(best: u32) -> Option<u16>
    ensures { result ≡ Told.best_of best }
{
    if best == 0 {
        None
    } else {
        Some(u16::try_from(best).unwrap_or(u16::MAX))
    }
}
