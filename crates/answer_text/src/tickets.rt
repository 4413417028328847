//! The text of an answer of any tickets.
ghost use Rattle.std.specs.Prelude.{◌≡◌, ◌≤◌, length, map, IfOk, MatchOption, OnOk, Some};
ghost use Rattle.fare_law.specs.Lawful.{unit_of};
ghost use Rattle.fare_law.specs.Limits.{IsFlight};
ghost use Rattle.fare_law.specs.Lists.{Each};
ghost use Rattle.fare_law.specs.Parts.{IsPart, Part};
ghost use Rattle.fare_law.specs.Units.{IsUnit};
ghost use Rattle.fare_law.specs.declared.requests.Request.{Request};
ghost use Rattle.fare_law.specs.declared.rules.UnitKind.{UnitKind as Kind};
ghost use Rattle.ticket_whole.specs.Known.{part_of, parts_of};
ghost use Rattle.answer_text.specs.Answer.{AnswerText, ComponentText, FlightTexts, IsRight, TicketText};
ghost use Rattle.answer_text.specs.Lines.{Adds};
ghost use Rattle.answer_text.specs.Said.{SaysAll};

use crate::lines::{ComponentLine, push_component, push_flight, push_ticket, push_tickets};
use fare_book::Book;
use fare_law::{Component, Flight, List, MOST_COMPONENTS, Mem, Priced};
use std::alloc::Global;
use ticket_whole::{component_price, flights_of, is_reverse, unit_kind};

/// The text of an answer: a line with the count of its tickets; of each ticket a line with its price; of
/// each of its components a line with the unit and its kind, the direction, the fare and the price; and
/// of each flight a line with the date of its departure.
///
/// The tickets are lawful ones of the book, at their prices. Of others, a component that has no price or
/// whose unit has no kind has no lines.
pub fn answer_text(alloc: Global, book: &Book, tickets: &[Priced]) -> Result<List<u8>, Mem>
    ensures { IfOk result (λ text. (request : Request) → Each (IsRight book.now request) tickets.now → AnswerText book.now request (map (λ p. p.ticket) tickets.now) text) }
{
    let mut text = Vec::new(alloc);
    push_answer_text(&mut text, book, tickets)?;
    Ok(List::from_vec(text))
}

/// Adds that text at the end of another.
pub fn push_answer_text(text: &mut Vec<u8>, book: &Book, tickets: &[Priced]) -> Result<(), Mem>
    ensures { OnOk result ((request : Request) → Each (IsRight book.now request) tickets.now → Adds (AnswerText book.now request (map (λ p. p.ticket) tickets.now)) text.old.items text.new.items) }
{
    push_tickets(text, tickets.len())?;
    for (at, priced) in tickets.iter().enumerate() {
        push_priced(text, at + 1, priced, book)?;
    }
    Ok(())
}

// Adds the text of a ticket.
fn push_priced(text: &mut Vec<u8>, number: usize, priced: &Priced, book: &Book) -> Result<(), Mem>
    ensures { OnOk result ((request : Request) → IsRight book.now request priced.now → Adds (TicketText book.now request number priced.now.ticket) text.old.items text.new.items) }
{
    push_ticket(text, number, priced.price)?;
    let components = priced.ticket.components.as_slice();
    for (at, component) in components.iter().enumerate() {
        push_part(text, at + 1, component, components, book)?;
    }
    Ok(())
}

// Adds the text of one of at most `MOST_COMPONENTS` components.
fn push_part(
    text: &mut Vec<u8>,
    number: usize,
    component: &Component,
    components: &[Component],
    book: &Book,
) -> Result<(), Mem>
    requires { length components.now ≤ MOST_COMPONENTS }
    ensures { OnOk result ((request : Request) (part : Part) (kind : Kind) → IsPart book.now request component.now part → part_of book.now request.sale component.now ≡ Some part
        → IsUnit kind (unit_of component.now.unit (parts_of book.now request.sale components.now)) → Adds (ComponentText (parts_of book.now request.sale components.now) number part) text.old.items text.new.items) }
{
    let Some(line) = line_of(number, component, components, book) else {
        return Ok(());
    };
    book.limits();
    push_component(text, line, &component.fare)?;
    push_flights(text, flights_of(component, book).as_slice())
}

// What the line of one of at most `MOST_COMPONENTS` components says.
fn line_of(
    number: usize,
    component: &Component,
    components: &[Component],
    book: &Book,
) -> Option<ComponentLine>
    requires { length components.now ≤ MOST_COMPONENTS }
    ensures { (request : Request) (part : Part) (kind : Kind) → IsPart book.now request component.now part → part_of book.now request.sale component.now ≡ Some part
        → IsUnit kind (unit_of component.now.unit (parts_of book.now request.sale components.now)) → SaysAll (parts_of book.now request.sale components.now) number part result }
{
    Some(ComponentLine {
        number,
        unit: component.unit,
        kind: unit_kind(component.unit, components, book)?,
        reverse: is_reverse(component, book)?,
        price: component_price(component, book)?,
    })
}

// Adds the lines of flights.
fn push_flights(text: &mut Vec<u8>, flights: &[Flight]) -> Result<(), Mem>
    requires { Each IsFlight flights.now }
    ensures { OnOk result (Adds (FlightTexts flights.now) text.old.items text.new.items) }
{
    for flight in flights {
        push_flight(text, flight)?;
    }
    Ok(())
}
