//! Reading a ticket.
ghost use Rattle.std.specs.Prelude.{◌≡◌, ◌≤◌, ℕ, List, length, drop, IfOk};
ghost use Rattle.fare_law.specs.declared.fares.FareKey.{FareKey as FareName};
ghost use Rattle.fare_law.specs.declared.tickets.Component.{Component as ComponentData};
ghost use Rattle.fare_verdict.specs.Tickets as Tickets;
ghost use Rattle.fare_verdict.specs.Tickets.{GoesOn, StopsBefore, flight_named, ticket_of_lines};

use crate::TicketFault;
use crate::forms::{FlightName, TicketLine};
use crate::lines::line_of;
use fare_book::Book;
use fare_law::{
    ArrayVec, Component, Flight, MOST_DATED_FLIGHTS, MOST_FLIGHTS_OF_A_COMPONENT, TextLine, Ticket,
};

/// The number of a flight that isn't known.
const UNKNOWN: u32 = 4_294_967_295;

/// The ticket that the lines spell, or the first line that isn't right: of none of the two forms, a
/// flight before any component, one beside `MOST_FLIGHTS_OF_A_COMPONENT` of its component, or a
/// component beside `MOST_COMPONENTS`. A flight that the timetable doesn't have has the number
/// 4294967295, which is unknown.
pub fn read_ticket(lines: &[TextLine], book: &Book) -> Result<Ticket, TicketFault>
    ensures { result ≡ ticket_of_lines book.now lines.now }
{
    let mut components = ArrayVec::new();
    let mut rest = lines;
    while let [line, more @ ..] = rest {
        let fault = TicketFault::Line { line: line.line };
        let Some(TicketLine::Component { unit, fare }) = line_of(line.bytes.as_slice()) else {
            return Err(fault);
        };
        if components.is_full() {
            return Err(fault);
        }
        let flights = read_flights(more, book)?;
        rest = &more[flights.len()..];
        components.push(Component {
            flights,
            fare,
            unit,
        });
    }
    Ok(Ticket { components })
}

/// The numbers of the flights in front, or the line of the first that is too many.
fn read_flights(
    lines: &[TextLine],
    book: &Book,
) -> Result<ArrayVec<u32, MOST_FLIGHTS_OF_A_COMPONENT>, TicketFault>
    ensures ticket { (front : List ComponentData) (unit : ℕ) (fare : FareName) → GoesOn book.now front unit fare lines.now result }
    ensures stops { IfOk result (λ numbers. StopsBefore (drop (length numbers) lines.now)) }
    ensures few { IfOk result (λ numbers. length numbers ≤ length lines.now) }
{
    let mut numbers = ArrayVec::new();
    for line in lines {
        let Some(TicketLine::Flight { name }) = line_of(line.bytes.as_slice()) else {
            return Ok(numbers);
        };
        if numbers.is_full() {
            return Err(TicketFault::Line { line: line.line });
        }
        numbers.push(number_of_flight(book, name));
    }
    Ok(numbers)
}

/// The number of the flight of this name, or one that is unknown.
fn number_of_flight(book: &Book, name: FlightName) -> u32
    ensures { result ≡ flight_named book.now.timetable.flights name }
{
    place_of_name(book.timetable().schedule().flights(), name)
}

/// The number of the flight of this name among at most `MOST_DATED_FLIGHTS`, or one that is unknown.
fn place_of_name(flights: &[Flight], name: FlightName) -> u32
    requires { length flights.now ≤ MOST_DATED_FLIGHTS }
    ensures { result ≡ flight_named flights.now name }
{
    for number in 0..flights.len() {
        if is_named(&flights[number], name) {
            return number as u32;
        }
    }
    UNKNOWN
}

/// Whether this is the name of the flight.
fn is_named(flight: &Flight, name: FlightName) -> bool
    ensures { result ≡ Tickets.names name flight.now }
{
    flight.day == name.day
        && flight.number == name.number
        && flight.carrier == name.carrier
        && flight.from == name.from
}
