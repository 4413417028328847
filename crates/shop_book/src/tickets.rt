//! The ticket of a text.
ghost use Rattle.std.specs.Prelude.{◌≡◌, ◌<◌, ◌+◌, ◌^◌, length, map, IfOk};
ghost use Rattle.case_text.specs.Lines.{shown, text_lines};
ghost use Rattle.shop_book.specs.Asked.{ticket_of};
ghost use Rattle.whole_case.specs.Stages.{Reads};

use crate::refusals::of_ticket;
use case_text::{Line, case_lines};
use fare_book::Book;
use fare_law::{List, Mem, TextLine, Ticket};
use fare_verdict::read_ticket;
use std::alloc::Global;
use whole_case::LoadFault;

/// The ticket that the lines of the bytes spell, its flights by their numbers in the book, or the first line at fault.
pub(crate) fn ticket_in(alloc: Global, book: &Book, bytes: &[u8]) -> Result<Ticket, LoadFault>
    requires { length bytes.now + 1 < 2 ^ 32 }
    ensures { Reads result (ticket_of book.now bytes.now) }
{
    let lines = case_lines(alloc, bytes)?;
    let lines = kept(alloc, lines.as_slice())?;
    match read_ticket(lines.as_slice(), book) {
        Ok(ticket) => Ok(ticket),
        Err(fault) => Err(of_ticket(fault)),
    }
}

/// The same lines, with bytes of their own.
fn kept(alloc: Global, lines: &[Line<'_>]) -> Result<List<TextLine>, Mem>
    ensures { IfOk result (λ kept. kept ≡ map shown lines.now) }
{
    let mut kept = List::new(alloc);
    for line in lines {
        kept.push(TextLine {
            line: line.line,
            bytes: List::from_vec(line.bytes.to_vec(alloc)?),
        })?;
    }
    Ok(kept)
}
