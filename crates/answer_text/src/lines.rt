//! The lines of an answer's text.
ghost use Rattle.std.specs.Prelude.{◌≡◌, ◌++◌, map, OnOk};
ghost use Rattle.market_time.specs.Dates.{IsInCentury};
ghost use Rattle.answer_text.specs.Lines.{line, tickets_line, ticket_line, component_line, kind_word, direction_word, FlightLine, Adds};

use fare_law::{FareKey, Flight, Mem, UnitKind};
use itoa::Buffer;
use market_time::day_text;

/// What a component's line says beside its fare.
#[derive(Clone, Copy)]
pub(crate) struct ComponentLine {
    pub number: usize,
    pub unit: u8,
    pub kind: UnitKind,
    /// Whether it is flown against the direction of its fare's filing.
    pub reverse: bool,
    pub price: u64,
}

impl ComponentLine {
    // The word for the kind of its unit.
    fn kind_name(&self) -> &[u8]
        ensures { result.now ≡ kind_word self.now.kind }
    {
        match self.kind {
            UnitKind::OneWay => b"one_way",
            UnitKind::RoundTrip => b"round_trip",
            UnitKind::OpenJaw => b"open_jaw",
            UnitKind::Circle => b"circle",
        }
    }

    // The word for its direction.
    fn direction_name(&self) -> &[u8]
        ensures { result.now ≡ direction_word self.now.reverse }
    {
        if self.reverse { b"reverse" } else { b"forward" }
    }
}

/// Adds the line that counts the tickets.
pub(crate) fn push_tickets(text: &mut Vec<u8>, count: usize) -> Result<(), Mem>
    ensures { OnOk result (text.new.items ≡ text.old.items ++ tickets_line count) }
{
    push_line(text, b"tickets", &[Buffer::new().format(count).as_bytes()])
}

/// Adds a ticket's line.
pub(crate) fn push_ticket(text: &mut Vec<u8>, number: usize, price: u64) -> Result<(), Mem>
    ensures { OnOk result (text.new.items ≡ text.old.items ++ ticket_line number price) }
{
    let (mut numbers, mut prices) = (Buffer::new(), Buffer::new());
    let words: [&[u8]; 3] = [
        numbers.format(number).as_bytes(),
        b"price",
        prices.format(price).as_bytes(),
    ];
    push_line(text, b"ticket", &words)
}

/// Adds a component's line.
pub(crate) fn push_component(
    text: &mut Vec<u8>,
    component: ComponentLine,
    fare: &FareKey,
) -> Result<(), Mem>
    ensures { OnOk result (text.new.items ≡ text.old.items ++ component_line component.number
        component.unit component.kind component.reverse fare.now component.price) }
{
    let (mut numbers, mut units, mut prices) = (Buffer::new(), Buffer::new(), Buffer::new());
    let words: [&[u8]; 10] = [
        numbers.format(component.number).as_bytes(),
        b"unit",
        units.format(component.unit).as_bytes(),
        component.kind_name(),
        component.direction_name(),
        &fare.carrier.0,
        &fare.from.0,
        &fare.to.0,
        fare.basis.0.as_slice(),
        prices.format(component.price).as_bytes(),
    ];
    push_line(text, b"component", &words)
}

/// Adds a flight's line.
pub(crate) fn push_flight(text: &mut Vec<u8>, flight: &Flight) -> Result<(), Mem>
    requires { IsInCentury flight.now.day }
    ensures { OnOk result (Adds (FlightLine flight.now) text.old.items text.new.items) }
{
    let mut buffer = Buffer::new();
    let date = day_text(flight.day);
    let words: [&[u8]; 5] = [
        &flight.carrier.0,
        buffer.format(flight.number).as_bytes(),
        &date,
        &flight.from.0,
        &flight.to.0,
    ];
    push_line(text, b"flight", &words)
}

// Adds a line: its name, then each word after a space.
fn push_line(text: &mut Vec<u8>, name: &[u8], words: &[&[u8]]) -> Result<(), Mem>
    ensures { OnOk result (text.new.items ≡ text.old.items ++ line name.now (map (λ w. w.now) words.now)) }
{
    text.extend_from_slice(name)?;
    for word in words {
        text.push(b' ')?;
        text.extend_from_slice(word)?;
    }
    text.push(b'\n')?;
    Ok(())
}
