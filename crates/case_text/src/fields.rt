//! The fields of a row.
ghost use Rattle.std.specs.Prelude.{◌≡◌, ◌<◌, ◌↔◌, IsTrue, length, IfOk};
ghost use Rattle.csv.specs.Records.{fields_of};
ghost use Rattle.case_text.specs.Cut.{cut, IsPlainLine, IsPlain, plain_line, plain_byte};

use csv::{ByteRecord, Error, ReaderBuilder};
use std::alloc::Global;

/// The fields of a line of ASCII characters without quotes and line ends.
pub(crate) fn line_fields(alloc: Global, line: &[u8]) -> Result<ByteRecord, Error>
    requires plain { IsPlainLine line.now }
    requires some { 0 < length line.now }
    ensures { IfOk result (λ row. fields_of row ≡ cut line.now) }
{
    let mut reader = ReaderBuilder::new()
        .has_headers(false)
        .from_reader(alloc, line);
    let mut row = ByteRecord::new(alloc);
    let _found = reader.read_byte_record(&mut row)?;
    Ok(row)
}

/// Whether the line is ASCII without quotes and line ends.
#[tactic(auto, using(crate::proofs::Plain::plain_steps))]
pub(crate) fn is_plain(line: &[u8]) -> bool
    ensures plain { IsTrue result → IsPlainLine line.now }
    ensures test { result ≡ plain_line line.now }
{
    // Without a branch at each byte, so that many are tested at a time.
    let mut plain = true;
    for i in 0..line.len() {
        plain = plain & is_plain_byte(line[i]);
    }
    plain
}

fn is_plain_byte(byte: u8) -> bool
    ensures plain { IsTrue result ↔ IsPlain byte }
    ensures test { result ≡ plain_byte byte }
{
    byte < 128 && byte != b'"' && byte != b'\n' && byte != b'\r'
}
