//! Whether a ticket is lawful, or its first breach.
ghost use Rattle.std.specs.Prelude.{◌↔◌, IfErr, IsOk};
ghost use Rattle.fare_law.specs.Lawful.{Lawful};
ghost use Rattle.fare_law.specs.Limits.{IsRequest};
ghost use Rattle.ticket_whole.specs.Breaches.{FirstBreach};

use crate::meeting::broken_at;
use crate::{Breach, Demand};
use fare_book::Book;
use fare_law::{Request, Ticket};

/// The demands are numbered 1 to 26.
const LAST_RULE: u8 = 26;

/// Whether the ticket is lawful. The error is the breach of the least number, at the least component
/// that has it.
pub fn lawful(ticket: &Ticket, book: &Book, request: &Request) -> Result<(), Breach>
    requires { IsRequest request.now }
    ensures lawful { IsOk result ↔ Lawful ticket.now book.now request.now }
    ensures breach { IfErr result (FirstBreach book.now request.now ticket.now) }
{
    for rule in 1..LAST_RULE + 1 {
        if let Some(component) = broken_at(Demand::numbered(rule), ticket, book, request) {
            return Err(Breach { rule, component });
        }
    }
    Ok(())
}
