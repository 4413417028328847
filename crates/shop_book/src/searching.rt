//! The search of a book.
ghost use Rattle.std.specs.Prelude.{◌≡◌, ◌<◌, ◌^◌, IfOk};
ghost use Rattle.fare_law.specs.Limits.{IsRequest};
ghost use Rattle.lowfare.specs.Answered.{HasAnswer};
ghost use Rattle.lowfare.specs.Searches.{TellsBest};
ghost use Rattle.shop_book.specs.Asked.{case_of};
ghost use Rattle.shop_book.specs.Replies.{Searched};

use crate::asking::request_in;
use crate::limits::tell_kept;
use crate::replies::Replied;
use answer_text::push_answer_text;
use certificate_text::push_cert_text;
use fare_book::Book;
use fare_component::Plain;
use fare_law::{List, Mem, Request};
use lowfare::{Outcome, Status, refused, too_large};
use search_check::searches_are_accepted;
use search_core::{Answer, SearchFault, search};
use std::alloc::Global;
use whole_case::LoadFault;

/// What a search of the book replies to the request that the bytes spell: the text of the command `search`, that
/// more residuals are reached than the budget, or the request's refusal. `best` replaces the number of tickets that
/// the request asks for.
pub fn search_text(
    alloc: Global,
    book: &Book,
    request: &[u8],
    best: Option<u16>,
    budget: u32,
) -> Replied
    ensures { IfOk result (λ r. Searched book.now best budget request.now r.status r.text) }
{
    let asked = match request_in(alloc, book, request, best) {
        Ok(asked) => asked,
        Err(LoadFault::Refused(refusal)) => return refused(alloc, &refusal),
        Err(LoadFault::Mem) => return Err(Mem),
    };
    match search(alloc, book, &asked, budget, &mut Plain) {
        Ok(answer) => told(alloc, &answer, book, &asked, budget),
        Err(SearchFault::TooLarge) => too_large(alloc),
        Err(SearchFault::BadRequest(_)) => unreachable!(),
        Err(SearchFault::Mem) => Err(Mem),
    }
}

/// The version of a book, the answer and the certificate.
fn told(alloc: Global, answer: &Answer, book: &Book, request: &Request, budget: u32) -> Replied
    requires limits { IsRequest request.now }
    requires fits { budget < 2 ^ 32 }
    requires answer { HasAnswer budget (case_of book.now request.now) answer.now }
    ensures status { IfOk result (λ r. r.status ≡ Status.Done) }
    ensures text { IfOk result (λ r. TellsBest (case_of book.now request.now) r.text) }
{
    tell_kept(book);
    searches_are_accepted();
    let number = answer.number;
    let mut text = format!(in alloc; "version {number}\n")?.into_bytes();
    push_answer_text(&mut text, book, answer.tickets.as_slice())?;
    push_cert_text(alloc, &mut text, &answer.certificate)?;
    Ok(Outcome {
        status: Status::Done,
        text: List::from_vec(text),
    })
}
