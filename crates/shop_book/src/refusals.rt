//! The faults of texts as refusals. Lines are counted from 1 in the text.
ghost use Rattle.std.specs.Prelude.{Some};
ghost use Rattle.whole_case.specs.Refusals.{IsAs, at_line, filing_reason, refused_at as at, request_reason};
ghost use Rattle.whole_case.specs.Refusals as Refusals;

use certificate_text::CertFault;
use fare_filing::FilingFault;
use fare_verdict::TicketFault;
use request_text::RequestFault;
use rule_text::RuleFault;
use whole_case::{LoadFault, Reason, Refusal, RuleWhy};

/// A reason at a line.
pub(crate) fn refused_at(line: u32, reason: Reason) -> LoadFault
    ensures { IsAs result (Some (at line reason)) }
{
    LoadFault::Refused(Refusal { line, reason })
}

/// A fault of a request.
pub(crate) fn of_request(fault: RequestFault) -> LoadFault
    ensures { IsAs result (at_line 1 (request_reason fault)) }
{
    match fault {
        RequestFault::Syntax => refused_at(1, Reason::Syntax),
        RequestFault::Shape => refused_at(1, Reason::Shape),
        RequestFault::BadRequest(why) => refused_at(1, Reason::BadRequest(why)),
        RequestFault::Mem => LoadFault::Mem,
    }
}

/// A fault of a filing.
pub(crate) fn of_filing(fault: FilingFault) -> LoadFault
    ensures { IsAs result (at_line 1 (filing_reason fault)) }
{
    match fault {
        FilingFault::Syntax => refused_at(1, Reason::Syntax),
        FilingFault::Shape { action } => refused_at(1, Reason::ActionShape { action }),
        FilingFault::Rule { action, fault } => of_rule(action, fault),
        FilingFault::Mem => LoadFault::Mem,
    }
}

fn of_rule(action: u32, fault: RuleFault) -> LoadFault
    ensures { IsAs result (at_line 1 (Refusals.rule_reason action fault)) }
{
    let why = match fault {
        RuleFault::Mem => return LoadFault::Mem,
        RuleFault::Missing => RuleWhy::Missing,
        RuleFault::Unknown => RuleWhy::Unknown,
        RuleFault::Range => RuleWhy::Range,
    };
    refused_at(1, Reason::ActionRule { action, why })
}

/// A fault of a ticket.
pub(crate) fn of_ticket(fault: TicketFault) -> LoadFault
    ensures { IsAs result (Refusals.of_ticket fault) }
{
    match fault {
        TicketFault::Line { line } => refused_at(line, Reason::Ticket),
    }
}

/// A fault of a certificate.
pub(crate) fn of_certificate(fault: CertFault) -> LoadFault
    ensures { IsAs result (Refusals.of_certificate fault) }
{
    match fault {
        CertFault::Syntax { line } => refused_at(line, Reason::Syntax),
        CertFault::Count { line } => refused_at(line, Reason::Count),
        CertFault::Mem => LoadFault::Mem,
    }
}
