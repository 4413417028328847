//! The tickets of runs.
ghost use Rattle.std.specs.Prelude.{◌≡◌, IfOk, map};
ghost use Rattle.certificate.specs.AnswerCheck.{AnswerIs, run_of};
ghost use Rattle.fare_law.specs.Limits.{IsRequest};
ghost use Rattle.fare_law.specs.Lists.{Each, Matched};
ghost use Rattle.residual_keys.specs.Searches.{IsDrawn};
ghost use Rattle.search_core.specs.Answers.{IsPriced};

use crate::schedules::schedule_of;
use certificate::CertAnswer;
use fare_book::Book;
use fare_law::{List, Mem, Priced, Request};
use residual_keys::nothing_lost;
use std::alloc::Global;
use ticket_order::{lawful_tickets, ticket_of};

/// The tickets of runs, each at the price of its run.
pub fn tickets_of(
    alloc: Global,
    book: &Book,
    request: &Request,
    runs: &[CertAnswer],
) -> Result<List<Priced>, Mem>
    requires request { IsRequest request.now }
    requires drawn { Each (λ run. IsDrawn book.now request.now (run_of run)) runs.now }
    ensures { IfOk result (Matched (IsPriced book.now request.now) runs.now) }
{
    let mut tickets = List::new(alloc);
    for run in runs {
        tickets.push(priced(book, request, run))?;
    }
    Ok(tickets)
}

/// The ticket of a run, at its price.
fn priced(book: &Book, request: &Request, run: &CertAnswer) -> Priced
    requires request { IsRequest request.now }
    requires drawn { IsDrawn book.now request.now (run_of run.now) }
    ensures { IsPriced book.now request.now run.now result }
{
    nothing_lost();
    lawful_tickets();
    let schedule = schedule_of(book);
    schedule.flights();
    match ticket_of(run.moves.as_slice(), schedule) {
        Some(ticket) => Priced {
            price: run.price,
            ticket,
        },
        None => unreachable!(),
    }
}
