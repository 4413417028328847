//! What each reader's fault is as the refusal of a case.
ghost use Rattle.std.specs.Prelude.{Some};
ghost use Rattle.whole_case.specs.Refusals as Refusals;
ghost use Rattle.whole_case.specs.Refusals.{IsAs};

use crate::{LoadFault, Reason, Refusal, RuleWhy};
use case_text::CaseFault;
use certificate_text::CertFault;
use fare_filing::FilingFault;
use fare_verdict::TicketFault;
use request_text::RequestFault;
use rule_text::RuleFault;
use schedule_book::SchedFault;

/// A reason at a line.
pub fn refused_at(line: u32, reason: Reason) -> LoadFault
    ensures { IsAs result (Some (Refusals.refused_at line reason)) }
{
    LoadFault::Refused(Refusal { line, reason })
}

/// A fault of form.
pub fn of_form(fault: CaseFault) -> LoadFault
    ensures { IsAs result (Refusals.of_form fault) }
{
    match fault {
        CaseFault::NoEnd { line } => refused_at(line, Reason::NoEnd),
        CaseFault::UnknownSection { line } => refused_at(line, Reason::UnknownSection),
        CaseFault::Order { line } => refused_at(line, Reason::Order),
        CaseFault::BadRow { line, column } => refused_at(line, Reason::BadRow { column }),
        CaseFault::TooMany { line } => refused_at(line, Reason::TooMany),
        CaseFault::AfterEnd { line } => refused_at(line, Reason::AfterEnd),
        CaseFault::Mem => LoadFault::Mem,
    }
}

/// A fault of the place rows or the flight rows.
pub fn of_rows(fault: SchedFault) -> LoadFault
    ensures { IsAs result (Refusals.of_rows fault) }
{
    match fault {
        SchedFault::PlaceTwice { line } => refused_at(line, Reason::PlaceTwice),
        SchedFault::UnknownPlace { line } => refused_at(line, Reason::UnknownPlace),
        SchedFault::SamePlace { line } => refused_at(line, Reason::SamePlace),
        SchedFault::BadPeriod { line } => refused_at(line, Reason::BadPeriod),
        SchedFault::ArrivesBefore { line } => refused_at(line, Reason::ArrivesBefore),
        SchedFault::Twice { line } => refused_at(line, Reason::Twice),
        SchedFault::TooMany { line } => refused_at(line, Reason::TooMany),
        SchedFault::Mem => LoadFault::Mem,
    }
}

/// A fault of the filing of a line.
pub fn of_filing(line: u32, fault: FilingFault) -> LoadFault
    ensures { IsAs result (Refusals.at_line line (Refusals.filing_reason fault)) }
{
    match fault {
        FilingFault::Syntax => refused_at(line, Reason::Syntax),
        FilingFault::Shape { action } => refused_at(line, Reason::ActionShape { action }),
        FilingFault::Rule { action, fault } => of_rule(line, action, fault),
        FilingFault::Mem => LoadFault::Mem,
    }
}

fn of_rule(line: u32, action: u32, fault: RuleFault) -> LoadFault
    ensures { IsAs result (Refusals.at_line line (Refusals.rule_reason action fault)) }
{
    let why = match fault {
        RuleFault::Missing => RuleWhy::Missing,
        RuleFault::Unknown => RuleWhy::Unknown,
        RuleFault::Range => RuleWhy::Range,
        RuleFault::Mem => return LoadFault::Mem,
    };
    refused_at(line, Reason::ActionRule { action, why })
}

/// A fault of the request of a line.
pub fn of_request(line: u32, fault: RequestFault) -> LoadFault
    ensures { IsAs result (Refusals.at_line line (Refusals.request_reason fault)) }
{
    match fault {
        RequestFault::Syntax => refused_at(line, Reason::Syntax),
        RequestFault::Shape => refused_at(line, Reason::Shape),
        RequestFault::BadRequest(why) => refused_at(line, Reason::BadRequest(why)),
        RequestFault::Mem => LoadFault::Mem,
    }
}

/// A fault of the ticket.
pub fn of_ticket(fault: TicketFault) -> LoadFault
    ensures { IsAs result (Refusals.of_ticket fault) }
{
    match fault {
        TicketFault::Line { line } => refused_at(line, Reason::Ticket),
    }
}

/// A fault of the certificate.
pub fn of_certificate(fault: CertFault) -> LoadFault
    ensures { IsAs result (Refusals.of_certificate fault) }
{
    match fault {
        CertFault::Syntax { line } => refused_at(line, Reason::Syntax),
        CertFault::Count { line } => refused_at(line, Reason::Count),
        CertFault::Mem => LoadFault::Mem,
    }
}
