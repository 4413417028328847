//! The check of a certificate.
ghost use Rattle.std.specs.Prelude.{◌≡◌, ◌<◌, ◌^◌, IfOk, length};
ghost use Rattle.certificate.specs.RowCheck.{RowsHold};
ghost use Rattle.certificate_check.specs.Tables.{HasRows, entries_of};
ghost use Rattle.certificate_check.specs.Verdicts.{IsVerdict};
ghost use Rattle.fare_law.specs.Limits.{IsRequest};

use crate::Verdict;
use crate::answering::answers_fail;
use crate::bounding::bounds_fail;
use crate::departing::departures_fail;
use crate::requesting::request_fails;
use crate::rows::rows_fail;
use crate::table::table_of;
use certificate::{Certificate, NumberedRow, RowNumbers};
use fare_book::Book;
use fare_law::{Mem, Request};
use residual_keys::residual_order;
use search_steps::SearchSteps;
use std::alloc::Global;

/// Whether the checks of a certificate hold, of a book and a request. No names the first check that
/// fails and the place where it fails: that of a row, of an answer, of the least answer whose front a
/// departure leaves, each from 1, or 1 for the version and 2 for the request; 0 where the root is no row,
/// or where a departure leaves the root.
pub fn check(
    alloc: Global,
    book: &Book,
    request: &Request,
    certificate: &Certificate,
) -> Result<Verdict, Mem>
    requires request { IsRequest request.now }
    requires rows { length certificate.now.rows < 2 ^ 32 }
    ensures { IfOk result (IsVerdict certificate.now book.now request.now) }
{
    if let Some(place) = rows_fail(alloc, book, request, &certificate.rows)? {
        return Ok(Verdict::No { rule: 1, place });
    }
    let RowNumbers { parts, rows } = certificate.rows.by_number();
    let mut steps = SearchSteps::over(alloc, book, request, parts.copied()?);
    check_by(alloc, book, request, certificate, rows, &mut steps)
}

/// The verdict by the checks after that of the rows, of which the steps have the numbers.
fn check_by(
    alloc: Global,
    book: &Book,
    request: &Request,
    certificate: &Certificate,
    numbered: &[NumberedRow],
    steps: &mut SearchSteps,
) -> Result<Verdict, Mem>
    requires request { IsRequest request.now }
    requires rows { length certificate.now.rows < 2 ^ 32 }
    requires hold { RowsHold book.now request.now certificate.now.rows }
    requires has { HasRows steps.old (entries_of numbered.now) certificate.now.rows }
    requires of_book { steps.old.case.book.now ≡ book.now }
    requires of_request { steps.old.case.request.now ≡ request.now }
    ensures { IfOk result (IsVerdict certificate.now book.now request.now) }
{
    residual_order();
    let answers = certificate.answers.as_slice();
    let table = table_of(alloc, steps, &certificate.rows, numbered)?;
    if let Some(place) = bounds_fail(alloc, steps, &table)? {
        return Ok(Verdict::No { rule: 2, place });
    }
    if let Some(place) = answers_fail(book, request, answers) {
        return Ok(Verdict::No { rule: 3, place });
    }
    if let Some(place) = departures_fail(alloc, steps, &table, answers)? {
        return Ok(Verdict::No { rule: 4, place });
    }
    if let Some(place) = request_fails(book, request, certificate) {
        return Ok(Verdict::No { rule: 5, place });
    }
    Ok(Verdict::Yes)
}
