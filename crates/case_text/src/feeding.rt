//! Rows of many lines, read with one reader.
ghost use Rattle.std.specs.Prelude.{◌≡◌, ◌++◌, ◌∷◌, ℕ, List, map, IsTrue, IfOk, OnOk, IfSome, is_some};
ghost use Rattle.csv.specs.Records.{fields_of};
ghost use Rattle.fare_law.specs.declared.rows.TextLine.{TextLine};
ghost use Rattle.case_text.specs.Cut.{cut};
ghost use Rattle.case_text.specs.Lines.{shown};
ghost use Rattle.case_text.specs.Readers.{Awaits, Follows, HasFields, IsRow, is_row as row_test, row_text as row_text_of};

use crate::Line;
use crate::fields::is_plain;
use csv::{ByteRecord, Error, Reader};
use fare_law::Mem;
use std::alloc::Global;
use std::io::Read;

/// Rows have room for so many bytes at first, at most.
const MOST_ROOM: usize = 16_777_216;

/// The text of the lines before the first that a reader doesn't take for one row.
#[tactic(auto, using(crate::proofs::Feed::text_steps))]
pub fn row_text(alloc: Global, lines: &[Line<'_>]) -> Result<Vec<u8>, Mem>
    ensures { IfOk result (λ text. text.items ≡ row_text_of (map shown lines.now)) }
{
    let mut text = Vec::with_capacity(alloc, lines.len().saturating_mul(64).min(MOST_ROOM))?;
    for line in lines {
        if !is_row(line.bytes) {
            return Ok(text);
        }
        text.extend_from_slice(line.bytes)?;
        text.push(b'\n')?;
    }
    Ok(text)
}

/// The fields of this line, where the reader is in step with the lines and takes it for one row.
pub fn fields_ahead<'r, R: Read>(
    reader: &mut Reader<R>,
    row: &'r mut ByteRecord,
    line: &Line<'_>,
    in_step: bool,
) -> Result<Option<&'r ByteRecord>, Mem>
    ensures step { IfOk result (λ found. (rest : List TextLine) → Follows R.remaining in_step reader.old (shown line.now ∷ rest) → Follows R.remaining (is_some found) reader.new rest) }
    ensures fields { IfOk result (λ found. (rest : List TextLine) → Follows R.remaining in_step reader.old (shown line.now ∷ rest) → IfSome found (λ row. HasFields (fields_of row.now) line.now.bytes.now)) }
{
    if !in_step || !is_row(line.bytes) {
        return Ok(None);
    }
    // A reader over a slice fails for want of memory alone.
    match next_fields(reader, row) {
        Ok(()) => Ok(Some(row)),
        Err(_) => Err(Mem),
    }
}

/// The fields of the line that the reader has before it.
fn next_fields<R: Read>(reader: &mut Reader<R>, row: &mut ByteRecord) -> Result<(), Error>
    ensures { OnOk result ((line rest : List ℕ) → IsRow line → Awaits R.remaining reader.old (line ++ 10 ∷ rest) → Awaits R.remaining reader.new rest × (fields_of row.new ≡ cut line)) }
{
    let _found = reader.read_byte_record(row)?;
    Ok(())
}

/// Whether a reader takes the line for one row.
fn is_row(line: &[u8]) -> bool
    ensures row { IsTrue result → IsRow line.now }
    ensures test { result ≡ row_test line.now }
{
    !line.is_empty() && is_plain(line)
}
