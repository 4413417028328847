//! The case of a verdict.
ghost use Rattle.std.specs.Prelude.{◌<◌, ◌+◌, ◌^◌, length};
ghost use Rattle.whole_case.specs.Cases as Cases;
ghost use Rattle.whole_case.specs.Stages.{Reads};
ghost use Rattle.whole_case.specs.Tickets as Tickets;

use crate::LoadFault;
use crate::asked::{AskedCase, asked_case};
use crate::histories::check_version;
use crate::tickets::ticket_in;
use case_text::CaseKind;
use fare_book::Book;
use fare_law::{Request, Ticket};
use std::alloc::Global;

/// The version of the book and the request that a ticket is judged by, and the ticket.
#[derive(Drop)]
pub struct VerdictCase {
    pub book: Book,
    pub request: Request,
    pub ticket: Ticket,
}

/// The case of a verdict that the bytes spell, or its first refusal, by stages. `at` names a version,
/// by default the last.
pub fn load_verdict_case(
    alloc: Global,
    bytes: &[u8],
    at: Option<u32>,
) -> Result<VerdictCase, LoadFault>
    requires { length bytes.now + 1 < 2 ^ 32 }
    ensures { Reads result (Cases.verdict_case at bytes.now) }
{
    let asked = asked_case(alloc, bytes, CaseKind::Verdict, at)?;
    let ticket = ticket_of(&asked, at)?;
    let (book, request) = asked.into_parts();
    Ok(VerdictCase {
        book,
        request,
        ticket,
    })
}

/// The ticket of a case that has the version of this number.
fn ticket_of(asked: &AskedCase<'_>, at: Option<u32>) -> Result<Ticket, LoadFault>
    ensures { Reads result (Cases.in_version at asked.now (Tickets.ticket_in asked.now.book asked.now.ticket)) }
{
    let ticket = ticket_in(&asked.book, &asked.ticket)?;
    check_version(at, &asked.filings)?;
    Ok(ticket)
}
