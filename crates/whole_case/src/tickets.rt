//! The ticket of a case.
ghost use Rattle.whole_case.specs.Stages.{Reads};
ghost use Rattle.whole_case.specs.Tickets as Tickets;

use crate::LoadFault;
use crate::reasons::of_ticket;
use fare_book::Book;
use fare_law::{List, TextLine, Ticket};
use fare_verdict::read_ticket;

/// The ticket that these lines spell, its flights by their numbers in the book.
pub fn ticket_in(book: &Book, lines: &List<TextLine>) -> Result<Ticket, LoadFault>
    ensures { Reads result (Tickets.ticket_in book.now lines.now) }
{
    match read_ticket(lines.as_slice(), book) {
        Ok(ticket) => Ok(ticket),
        Err(fault) => Err(of_ticket(fault)),
    }
}
