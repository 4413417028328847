//! The answer that runs and rows make.
ghost use Rattle.std.specs.Prelude.{◌≡◌, IfOk, map};
ghost use Rattle.certificate.specs.AnswerCheck.{run_of};
ghost use Rattle.certificate.specs.CertOf.{RowsAre};
ghost use Rattle.certificate.specs.Checks.{Checks};
ghost use Rattle.fare_law.specs.Limits.{IsRequest};
ghost use Rattle.residual_keys.specs.Searches.{BestRuns};
ghost use Rattle.search_core.specs.Answers.{IsAnswer};
ghost use Rattle.search_core.specs.declared.outcome.Answer.{Answer as Found};

use crate::Answer;
use crate::schedules::schedule_of;
use crate::ticketing::tickets_of;
use certificate::{CertAnswer, CertRows, Certificate, search_meets_checks};
use fare_book::Book;
use fare_law::{List, Mem, Request};
use residual_keys::best_runs;
use std::alloc::Global;

/// The answer of the best runs and of the rows of a graph.
pub fn answer_of(
    alloc: Global,
    book: &Book,
    request: &Request,
    runs: List<CertAnswer>,
    rows: CertRows,
) -> Result<Answer, Mem>
    requires request { IsRequest request.now }
    requires runs { BestRuns book.now request.now request.now.best (map run_of runs) }
    requires rows { RowsAre book.now request.now rows }
    ensures { IfOk result (IsAnswer book.now request.now) }
{
    best_runs();
    let tickets = tickets_of(alloc, book, request, runs.as_slice())?;
    let number = book.number();
    let certificate = Certificate {
        number,
        request: request.copied(),
        answers: runs,
        rows,
    };
    Ok(Answer {
        number,
        tickets,
        certificate,
    })
}

/// The certificate of an answer meets the checks.
pub fn answers_meet_checks(book: &Book, request: &Request)
    requires { IsRequest request.now }
    ensures { (a : Found) → IsAnswer book.now request.now a → Checks a.certificate book.now request.now }
{
    search_meets_checks();
    book.limits();
    schedule_of(book).flights();
}
