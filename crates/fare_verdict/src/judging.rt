//! All findings of a ticket.
ghost use Rattle.std.specs.Prelude.{◌≡◌, ◌↔◌, ◌<◌, ◌++◌, suc, length, map, [], IfOk, IsTrue, OnOk};
ghost use Rattle.fare_law.specs.Lawful.{Lawful};
ghost use Rattle.fare_law.specs.Limits.{IsRequest};
ghost use Rattle.fare_law.specs.Lists.{OnFirst};
ghost use Rattle.ticket_whole.specs.Breaches.{FirstBreach, TicketMeets, number_of};
ghost use Rattle.ticket_whole.specs.declared.breach.Breach.{Breach};
ghost use Rattle.fare_verdict.specs.Findings as Findings;
ghost use Rattle.fare_verdict.specs.Findings.{AreFindings, IsOf};
ghost use Rattle.fare_verdict.specs.Told.{Extends, IsAt, IsOnWhole, with_category};

use crate::Finding;
use crate::asking::Asked;
use crate::failing::failing;
use crate::laws::{first_finding_is_first_breach, lawful_without_findings};
use crate::stages::{is_tested, stages_of};
use fare_book::Book;
use fare_law::{List, Mem, Request, Ticket};
use std::alloc::Global;
use ticket_whole::{Demand, broken_at, lawful};

/// The demands are numbered 1 to 26.
const LAST_RULE: u8 = 26;

/// All findings of a ticket, by rule, component and category. There is none exactly where the ticket is
/// lawful; else the first has the rule and the component of the first breach.
///
/// Rules 1 to 3 are tested first, and the others only where they are met. Rules 7 to 10 are tested where 6
/// is met, 12 where the component's fare is live, 14 to 26 where 4, 5, 11, 12 and 13 are met, and 20 to 24
/// where the component's unit has a kind.
pub fn verdict(
    alloc: Global,
    ticket: &Ticket,
    book: &Book,
    request: &Request,
) -> Result<List<Finding>, Mem>
    requires { IsRequest request.now }
    ensures findings { IfOk result (AreFindings ticket.now book.now request.now) }
    ensures lawful { IfOk result (λ findings. (findings ≡ []) ↔ Lawful ticket.now book.now request.now) }
    ensures first { IfOk result (λ findings. (breach : Breach) → FirstBreach book.now request.now ticket.now breach → OnFirst (λ f. (f.rule ≡ breach.rule) × (f.component ≡ breach.component)) findings) }
{
    lawful_without_findings();
    first_finding_is_first_breach();
    match lawful(ticket, book, request) {
        Ok(()) => Ok(List::new(alloc)),
        Err(_) => all_findings(alloc, ticket, book, request),
    }
}

/// All findings, rule by rule.
fn all_findings(
    alloc: Global,
    ticket: &Ticket,
    book: &Book,
    request: &Request,
) -> Result<List<Finding>, Mem>
    requires { IsRequest request.now }
    ensures { IfOk result (AreFindings ticket.now book.now request.now) }
{
    let stages = stages_of(ticket, book, request);
    let mut found = List::new(alloc);
    for rule in 1..LAST_RULE + 1 {
        let demand = Demand::numbered(rule);
        if is_tested(demand, stages) {
            push_of(&mut found, Asked { rule, demand }, ticket, book, request)?;
        }
    }
    Ok(found)
}

/// Adds the findings of a demand.
fn push_of(
    found: &mut List<Finding>,
    asked: Asked,
    ticket: &Ticket,
    book: &Book,
    request: &Request,
) -> Result<(), Mem>
    requires request { IsRequest request.now }
    requires rule { asked.rule ≡ number_of asked.demand }
    ensures { OnOk result (Extends (IsOf book.now request.now ticket.now asked.demand) found.old found.new) }
{
    push_whole(found, asked, ticket, book, request)?;
    for at in 0..ticket.components.as_slice().len() {
        push_at(found, asked, at, ticket, book, request)?;
    }
    Ok(())
}

/// Adds the finding on the whole ticket, if there is one.
fn push_whole(
    found: &mut List<Finding>,
    asked: Asked,
    ticket: &Ticket,
    book: &Book,
    request: &Request,
) -> Result<(), Mem>
    requires request { IsRequest request.now }
    requires rule { asked.rule ≡ number_of asked.demand }
    ensures { OnOk result (Extends (IsOnWhole book.now request.now ticket.now asked.demand) found.old found.new) }
{
    if !fails_whole(asked.demand, ticket, book, request) {
        return Ok(());
    }
    found.push(Finding {
        rule: asked.rule,
        component: 0,
        unit: 0,
        category: whole_category(asked.demand),
    })
}

/// Whether the ticket as a whole fails the demand.
fn fails_whole(demand: Demand, ticket: &Ticket, book: &Book, request: &Request) -> bool
    requires { IsRequest request.now }
    ensures { IsTrue result ↔ (TicketMeets book.now request.now ticket.now demand → ⊥) }
{
    match broken_at(demand, ticket, book, request) {
        None => false,
        Some(number) => number == 0,
    }
}

/// The category that a demand on the whole ticket reads, 0 for none.
fn whole_category(demand: Demand) -> u8
    ensures { result ≡ Findings.whole_category demand }
{
    match demand {
        Demand::EndOnEnd => 10,
        _ => 0,
    }
}

/// Adds the findings on the component behind so many.
fn push_at(
    found: &mut List<Finding>,
    asked: Asked,
    at: usize,
    ticket: &Ticket,
    book: &Book,
    request: &Request,
) -> Result<(), Mem>
    requires request { IsRequest request.now }
    requires rule { asked.rule ≡ number_of asked.demand }
    requires one { at < length ticket.now.components }
    ensures { OnOk result (Extends (IsAt book.now request.now ticket.now asked.demand at) found.old found.new) }
{
    let components = ticket.components.as_slice();
    let (before, _) = components.split_at(at);
    let component = &components[at];
    let categories = failing(asked.demand, before, component, ticket, book, request);
    let first = Finding {
        rule: asked.rule,
        component: at as u8 + 1,
        unit: component.unit,
        category: 0,
    };
    push_each(found, first, categories.as_slice())
}

/// Adds the finding with each of these categories.
fn push_each(found: &mut List<Finding>, first: Finding, categories: &[u8]) -> Result<(), Mem>
    ensures { OnOk result (found.new ≡ found.old ++ map (with_category first) categories.now) }
{
    for category in categories {
        found.push(Finding {
            category: *category,
            ..first
        })?;
    }
    Ok(())
}
