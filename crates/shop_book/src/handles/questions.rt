//! What is asked of a book, and the one way in which each question is.
ghost use Rattle.shop_book.specs.Questions.{has_long, says};
ghost use Rattle.shop_book.specs.Told.{Asks, Finds, FindsOf};

use crate::calendars::calendar_text;
use crate::checking::check_text;
use crate::handles::Handle;
use crate::handles::kept::Kept;
use crate::handles::lacks::{Lack, fit};
use crate::handles::texts::{book_of, tell};
use crate::searching::search_text;
use crate::verdicts::verdict_text;
use fare_book::Book;
use fare_calendar::Spans;
use lowfare::Outcome;
use std::alloc::Global;

/// A question, in texts of C's: a search of a request, with the number of tickets and the budget; a calendar of a request, with
/// its days and the budget; a check of a certificate, or a verdict of a ticket, by a request.
#[derive(Drop)]
pub enum Question<'a> {
    Search(&'a [u8], Option<u16>, u32),
    Calendar(&'a [u8], Spans, u32),
    Check(&'a [u8], &'a [u8]),
    Verdict(&'a [u8], &'a [u8]),
}

/// Asks the book that the handle holds, and tells the reply. The handle then holds the book again.
pub fn ask(alloc: Global, book: &mut Handle, answer: &mut Handle, question: &Question<'_>) -> u32
    ensures { Asks book.old book.new (says question.now) (has_long question.now) result answer.new }
{
    let Some(kept) = book.take(alloc) else {
        return tell(alloc, answer, Err(Lack::NoBook));
    };
    let reply = replied(alloc, &kept, question);
    book.put(alloc, kept);
    tell(alloc, answer, reply)
}

/// What the book that is kept replies.
fn replied(alloc: Global, kept: &Kept, question: &Question<'_>) -> Result<Outcome, Lack>
    ensures { FindsOf kept.now (says question.now) (has_long question.now) result }
{
    let book = book_of(kept)?;
    reply_of(alloc, book, question)
}

/// What a book replies.
fn reply_of(alloc: Global, book: &Book, question: &Question<'_>) -> Result<Outcome, Lack>
    ensures { Finds (says question.now book.now) (has_long question.now) result }
{
    match *question {
        Question::Search(request, best, budget) => {
            fit(request)?;
            Ok(search_text(alloc, book, request, best, budget)?)
        }
        Question::Calendar(request, spans, budget) => {
            fit(request)?;
            Ok(calendar_text(alloc, book, request, spans, budget)?)
        }
        Question::Check(request, certificate) => {
            fit(request)?;
            fit(certificate)?;
            Ok(check_text(alloc, book, request, certificate)?)
        }
        Question::Verdict(request, ticket) => {
            fit(request)?;
            fit(ticket)?;
            Ok(verdict_text(alloc, book, request, ticket)?)
        }
    }
}
