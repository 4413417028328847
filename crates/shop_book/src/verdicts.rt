//! The verdict of a ticket by a book.
ghost use Rattle.std.specs.Prelude.{◌≡◌, ◌<◌, ◌+◌, ◌^◌, length, IfOk};
ghost use Rattle.fare_law.specs.Lawful.{Lawful};
ghost use Rattle.fare_law.specs.Limits.{IsRequest};
ghost use Rattle.lowfare.specs.Verdicts as Verdicts;
ghost use Rattle.shop_book.specs.Asked.{ReadsTicket, judged_case};
ghost use Rattle.shop_book.specs.Replies.{Judged};

use crate::asking::request_in;
use crate::replies::Replied;
use crate::tickets::ticket_in;
use fare_book::Book;
use fare_law::{List, Mem, Request, Ticket};
use fare_verdict::verdict;
use lowfare::{Outcome, Status, refused, unlawful};
use std::alloc::Global;
use ticket_whole::price;
use whole_case::LoadFault;

/// What a verdict of the ticket that the bytes spell replies, by the book and the request: that it is lawful, with its
/// price, or all its breaches; or the first refusal, of the request or else of the ticket.
pub fn verdict_text(alloc: Global, book: &Book, request: &[u8], ticket: &[u8]) -> Replied
    requires { length ticket.now + 1 < 2 ^ 32 }
    ensures { IfOk result (λ r. Judged book.now request.now ticket.now r.status r.text) }
{
    let (asked, told) = match read_both(alloc, request, ticket, book) {
        Ok(both) => both,
        Err(LoadFault::Refused(refusal)) => return refused(alloc, &refusal),
        Err(LoadFault::Mem) => return Err(Mem),
    };
    let findings = verdict(alloc, &told, book, &asked)?;
    let is_lawful = findings.len() == 0;
    if is_lawful {
        lawful(alloc, book, &asked, &told)
    } else {
        unlawful(alloc, findings.as_slice())
    }
}

/// The request and the ticket.
fn read_both(
    alloc: Global,
    request: &[u8],
    ticket: &[u8],
    book: &Book,
) -> Result<(Request, Ticket), LoadFault>
    requires { length ticket.now + 1 < 2 ^ 32 }
    ensures read { ReadsTicket result book.now request.now ticket.now }
    ensures limits { IfOk result (λ both. IsRequest both.0) }
{
    let asked = request_in(alloc, book, request, None)?;
    let told = ticket_in(alloc, book, ticket)?;
    Ok((asked, told))
}

/// That a ticket is lawful, with its price.
fn lawful(alloc: Global, book: &Book, request: &Request, ticket: &Ticket) -> Replied
    requires { Lawful ticket.now book.now request.now }
    ensures status { IfOk result (λ r. r.status ≡ Status.Done) }
    ensures text { IfOk result (λ r. Verdicts.TellsLawful (judged_case book.now request.now ticket.now) r.text) }
{
    match price(ticket, book) {
        Some(price) => {
            let text = format!(in alloc; "lawful price {price}\n")?.into_bytes();
            Ok(Outcome {
                status: Status::Done,
                text: List::from_vec(text),
            })
        }
        None => unreachable!(),
    }
}
