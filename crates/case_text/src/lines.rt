//! Cutting a text into lines.
ghost use Rattle.std.specs.Prelude.{◌≡◌, ◌≢◌, ◌<◌, ◌≤◌, ◌+◌, ◌∷◌, ◌^◌, ℕ, map, length, slice_index, IfOk};
ghost use Rattle.std.specs.Str.Lines.{lines as lines_of, strip_carriage_return};
ghost use Rattle.case_text.specs.Lines.{text_lines, shown};

use fare_law::Mem;
use memchr::memchr;
use std::alloc::Global;

/// A line of a text with its number, counted from 1.
#[derive(Clone, Copy)]
pub struct Line<'a> {
    pub line: u32,
    pub bytes: &'a [u8],
}

/// The lines of a text that aren't empty, and the number that a line after the last would have.
#[derive(Drop)]
pub struct NumberedLines<'a> {
    pub lines: Vec<Line<'a>>,
    pub next: u32,
}

/// The lines of a text that aren't empty, with their numbers. A line ends with LF, and one CR
/// directly before it is dropped; bytes after the last LF are a line.
pub fn case_lines(alloc: Global, bytes: &[u8]) -> Result<Vec<Line<'_>>, Mem>
    requires { length bytes.now + 1 < 2 ^ 32 }
    ensures { IfOk result (λ v. map shown v.items ≡ text_lines bytes.now) }
{
    let NumberedLines { lines, .. } = numbered_lines(alloc, bytes)?;
    Ok(lines)
}

/// The same, with the number after the last line.
#[tactic(auto, using(crate::proofs::Cutting::line_steps))]
pub fn numbered_lines(alloc: Global, bytes: &[u8]) -> Result<NumberedLines<'_>, Mem>
    requires { length bytes.now + 1 < 2 ^ 32 }
    ensures lines { IfOk result (λ found. map shown found.lines.items ≡ text_lines bytes.now) }
    ensures next { IfOk result (λ found. found.next ≡ length (lines_of bytes.now) + 1) }
{
    // Room that isn't written takes no memory, so few lists are moved as they grow.
    let mut lines = Vec::with_capacity(alloc, bytes.len() / 64)?;
    let mut next = 1;
    let mut rest = bytes;
    while !rest.is_empty() {
        let (line, more) = first_line(rest);
        if !line.is_empty() {
            lines.push(Line {
                line: next,
                bytes: line,
            })?;
        }
        next += 1;
        rest = more;
    }
    Ok(NumberedLines { lines, next })
}

/// The first line of a text, and what follows it.
fn first_line<'a>(text: &'a [u8]) -> (&'a [u8], &'a [u8])
    requires { 0 < length text.now }
    ensures lines { lines_of text.now ≡ result.0.now ∷ lines_of result.1.now }
    ensures shorter { length result.1.now < length text.now }
{
    let end = line_end(text);
    if end < text.len() {
        let (line, _) = text.split_at(end);
        let (_, rest) = text.split_at(end + 1);
        (stripped(line), rest)
    } else {
        (text, &[])
    }
}

/// Where the first newline stands, or else the text ends.
fn line_end(text: &[u8]) -> usize
    ensures bound { result ≤ length text.now }
    ensures clean { (k : ℕ) → k < result → slice_index text.now k ≢ 10 }
    ensures stops { result < length text.now → slice_index text.now result ≡ 10 }
{
    memchr(b'\n', text).unwrap_or(text.len())
}

/// Without the carriage return at its end.
fn stripped(line: &[u8]) -> &[u8]
    ensures { result.now ≡ strip_carriage_return line.now }
{
    match line {
        [front @ .., 13] => front,
        _ => line,
    }
}
