//! The answer check.
ghost use Rattle.std.specs.Prelude.{◌↔◌, IsTrue, MatchOption};
ghost use Rattle.certificate.specs.AnswerCheck.{AnswerBelow, AnswerIs, AnswerRight, AnswersFail, AnswersHold};
ghost use Rattle.certificate.specs.InOrder.{IfLast};
ghost use Rattle.fare_law.specs.declared.tickets.Ticket.{Ticket};
ghost use Rattle.fare_law.specs.Limits.{IsRequest};

use certificate::CertAnswer;
use fare_book::Book;
use fare_law::Request;
use residual_keys::nothing_lost;
use std::cmp::Ordering;
use ticket_order::{cmp_key, code, lawful_tickets, ticket_of};
use ticket_whole::{lawful, price};

/// The place where the answer check fails, if it does.
pub fn answers_fail(book: &Book, request: &Request, answers: &[CertAnswer]) -> Option<u32>
    requires { IsRequest request.now }
    ensures { MatchOption result (AnswersHold book.now request.now answers.now) (AnswersFail book.now request.now answers.now) }
{
    for i in 0..answers.len() {
        if !is_right(book, request, &answers[..i], &answers[i]) {
            return Some(i as u32 + 1);
        }
    }
    None
}

/// Whether an answer is one of as many as are asked for, a lawful ticket at its price, and greater than
/// the last of those before it.
fn is_right(book: &Book, request: &Request, before: &[CertAnswer], answer: &CertAnswer) -> bool
    requires { IsRequest request.now }
    ensures { IsTrue result ↔ AnswerRight book.now request.now before.now answer.now }
{
    before.len() < request.best as usize
        && is_ticket(book, request, answer)
        && ascends(before, answer)
}

/// Whether a lawful ticket has the moves and the price of an answer.
fn is_ticket(book: &Book, request: &Request, answer: &CertAnswer) -> bool
    requires { IsRequest request.now }
    ensures { IsTrue result ↔ ((t : Ticket) × AnswerIs book.now request.now answer.now t) }
{
    nothing_lost();
    lawful_tickets();
    let schedule = book.timetable().schedule();
    match ticket_of(answer.moves.as_slice(), schedule) {
        Some(ticket) => {
            lawful(&ticket, book, request).is_ok() && price(&ticket, book) == Some(answer.price)
        }
        None => false,
    }
}

/// Whether an answer is greater than the last, where there is one.
fn ascends(before: &[CertAnswer], answer: &CertAnswer) -> bool
    ensures { IsTrue result ↔ IfLast (λ last. AnswerBelow last answer.now) before.now }
{
    match before.last() {
        Some(last) => is_below(last, answer),
        None => true,
    }
}

/// Whether the one answer is cheaper, or as cheap with a smaller code.
fn is_below(one: &CertAnswer, other: &CertAnswer) -> bool
    ensures { IsTrue result ↔ AnswerBelow one.now other.now }
{
    let code_of_one = code(one.moves.as_slice());
    let code_of_other = code(other.moves.as_slice());
    matches!(
        cmp_key(one.price, &code_of_one, other.price, &code_of_other),
        Ordering::Less
    )
}
