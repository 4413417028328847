//! The answers and the rows of a certificate's text.
ghost use Rattle.std.specs.Prelude.{◌≡◌, ◌<◌, ◌^◌, length, map, IfOk, IfErr};
ghost use Rattle.certificate.specs.NumberedRows.{AreLive, rows_of};
ghost use Rattle.fare_law.specs.Lists.{Each};
ghost use Rattle.certificate_text.specs.CertText.{answer_lines, row_lines};
ghost use Rattle.certificate_text.specs.Faults.{Due, FaultFrom, Passed, rows_due};
ghost use Rattle.certificate_text.specs.Lines.{IsAnswer, IsRow, row_line};
ghost use Rattle.certificate_text.specs.Unread.{HasRoom, unread};

use crate::CertFault;
use crate::unread::Lines;
use certificate::{CertAnswer, CertRows, NumberedRow};
use fare_law::List;
use residual_table::KeyReader;
use std::alloc::Global;

/// The answers and how many there are, and what is left after their lines.
pub fn answers<'a>(
    alloc: Global,
    start: Lines<'a>,
) -> Result<(List<CertAnswer>, Lines<'a>), CertFault>
    requires { HasRoom (unread start) }
    ensures ok { IfOk result (λ x. Passed Due.AnswerCount (unread start.entry)
        (answer_lines x.0) Due.RowCount (unread x.1)) }
    ensures fits { IfOk result (λ x. Each IsAnswer x.0 × (length x.0 < 2 ^ 32)) }
    ensures fault { IfErr result (FaultFrom Due.AnswerCount (unread start.entry)) }
{
    let (count, first) = start.answer_count()?;
    let mut answers = List::new(alloc);
    let mut at = first;
    while answers.len() < count as usize {
        // not by `?`, as for rows below
        let (answer, next) = match at.answer() {
            Ok(found) => found,
            Err(fault) => return Err(fault),
        };
        answers.push(answer)?;
        at = next;
    }
    Ok((answers, at))
}

/// The rows and how many there are, and what is left after their lines.
pub fn rows<'a>(alloc: Global, start: Lines<'a>) -> Result<(CertRows, Lines<'a>), CertFault>
    requires { HasRoom (unread start) }
    ensures ok { IfOk result (λ x. Passed Due.RowCount (unread start.entry)
        (row_lines x.0) Due.End (unread x.1)) }
    ensures fits { IfOk result (λ x. Each IsRow x.0 × (length x.0 < 2 ^ 32)) }
    ensures fault { IfErr result (FaultFrom Due.RowCount (unread start.entry)) }
{
    let (count, first) = start.row_count()?;
    let mut reader = KeyReader::new(alloc)?;
    let found = numbered_rows(alloc, &mut reader, count, first);
    let parts = reader.into_parts();
    let (rows, left) = found?;
    Ok((CertRows::of(parts, rows.into_vec()), left))
}

// So many rows by the numbers of their reader, and what is left after their lines.
fn numbered_rows<'a>(
    alloc: Global,
    reader: &mut KeyReader,
    count: u32,
    first: Lines<'a>,
) -> Result<(List<NumberedRow>, Lines<'a>), CertFault>
    requires { HasRoom (unread first) }
    ensures ok { IfOk result (λ x. Passed (rows_due count) (unread first.entry)
        (map row_line (rows_of reader.new x.0)) Due.End (unread x.1)) }
    ensures live { IfOk result (λ x. AreLive reader.new x.0) }
    ensures fits { IfOk result (λ x. Each IsRow (rows_of reader.new x.0)) }
    ensures count { IfOk result (λ x. length x.0 ≡ count) }
    ensures fault { IfErr result (FaultFrom (rows_due count) (unread first.entry)) }
{
    let mut rows = List::new(alloc);
    let mut at = first;
    while rows.len() < count as usize {
        // not by `?`, which takes what was read by value in a form that has no proof
        let (row, next) = match at.row(reader) {
            Ok(found) => found,
            Err(fault) => return Err(fault),
        };
        rows.push(row)?;
        at = next;
    }
    Ok((rows, at))
}
