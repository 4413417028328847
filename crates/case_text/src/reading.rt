//! Reading a case.
ghost use Rattle.std.specs.Prelude.{◌+◌, ◌<◌, ◌^◌, length, map, IfOk};
ghost use Rattle.case_text.specs.Entries as Entries;
ghost use Rattle.case_text.specs.Gives.{Told};
ghost use Rattle.case_text.specs.Limits.{HasRows, IsCase};
ghost use Rattle.case_text.specs.Lines.{shown};
ghost use Rattle.case_text.specs.Readers.{Awaits, row_text as row_text_of};

use crate::feeding::{fields_ahead, row_text};
use crate::judging::judged;
use crate::lines::numbered_lines;
use crate::standing::Standing;
use crate::{Case, CaseFault, CaseKind, Line};
use csv::{ByteRecord, Reader, ReaderBuilder};
use std::alloc::Global;
use std::io::Read;

/// The case that the bytes spell, or the first fault in the order of the lines. Its rows and the
/// counts of its sections are within their limits, and it has one request where its kind has one.
#[tactic(auto, using(crate::proofs::SectionCounts::limits_told))]
pub fn sections(alloc: Global, bytes: &[u8], kind: CaseKind) -> Result<Case<'_>, CaseFault>
    requires { length bytes.now + 1 < 2 ^ 32 }
    ensures told { Told result (Entries.case_of kind bytes.now) }
    ensures limits { IfOk result (IsCase kind) }
{
    let found = numbered_lines(alloc, bytes)?;
    read_lines(alloc, kind, found.lines.as_slice(), found.next)
}

/// The case that these lines spell, where `next` is the number of the line after the last.
fn read_lines<'a>(
    alloc: Global,
    kind: CaseKind,
    lines: &[Line<'a>],
    next: u32,
) -> Result<Case<'a>, CaseFault>
    ensures told { Told result (Entries.case_read kind next (map shown lines.now)) }
    ensures rows { IfOk result HasRows }
{
    let text = row_text(alloc, lines)?;
    let mut reader = ReaderBuilder::new()
        .has_headers(false)
        .flexible(true)
        .from_reader(alloc, text.as_slice());
    read_with(alloc, kind, lines, next, &mut reader)
}

/// The same with a reader that has the rows among the lines before it.
#[tactic(auto, using(crate::proofs::Growing::reading_steps))]
fn read_with<'a, R: Read>(
    alloc: Global,
    kind: CaseKind,
    lines: &[Line<'a>],
    next: u32,
    reader: &mut Reader<R>,
) -> Result<Case<'a>, CaseFault>
    requires { Awaits R.remaining reader.old (row_text_of (map shown lines.now)) }
    ensures told { Told result (Entries.case_read kind next (map shown lines.now)) }
    ensures rows { IfOk result HasRows }
{
    let mut standing = Standing::at_start();
    let mut case = Case::new(alloc, lines.len())?;
    let mut row = ByteRecord::new(alloc);
    let mut in_step = true;
    for line in lines {
        let fields = fields_ahead(reader, &mut row, line, in_step)?;
        in_step = fields.is_some();
        let entry = judged(alloc, kind, standing, line, fields)?;
        standing = standing.moved(&entry);
        case.add(alloc, entry)?;
    }
    if standing.is_over() {
        Ok(case)
    } else {
        Err(CaseFault::NoEnd { line: next })
    }
}
