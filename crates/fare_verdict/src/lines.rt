//! Reading the lines of a ticket.
ghost use Rattle.std.specs.Prelude.{◌≡◌, MatchOption, None, Some};
ghost use Rattle.fare_verdict.specs.Lines as Lines;
ghost use Rattle.word_text.specs.Words.{cut_at};

use crate::forms::{FlightName, TicketLine};
use fare_law::FareKey;
use market_time::day_of;
use name_text::{basis_of, carrier_of, place_of};
use word_text::{cut, number_of};

/// What a line says: `component U CARRIER FROM TO BASIS` or `flight CARRIER NUMBER DATE FROM`.
#[tactic(auto, unfolding(crate::specs::Lines::line_in))]
pub fn line_of(text: &[u8]) -> Option<TicketLine>
    ensures { result ≡ Lines.line_in text.now }
{
    let (first, rest) = word_of(text)?;
    if first == b"component".as_slice() {
        component_of(rest)
    } else if first == b"flight".as_slice() {
        flight_of(rest)
    } else {
        None
    }
}

/// The word before the first space, and what stands after that.
fn word_of(text: &[u8]) -> Option<(&[u8], &[u8])>
    ensures { MatchOption result (cut_at 32 text.now ≡ None) (λ x. cut_at 32 text.now ≡ Some (x.0.now, x.1.now)) }
{
    cut(text, b' ')
}

/// The label of a unit, from 0 to 255, and a fare.
#[tactic(auto, unfolding(crate::specs::Lines::component_in))]
fn component_of(text: &[u8]) -> Option<TicketLine>
    ensures { result ≡ Lines.component_in text.now }
{
    let (unit, text) = word_of(text)?;
    let (carrier, text) = word_of(text)?;
    let (from, text) = word_of(text)?;
    let (to, basis) = word_of(text)?;
    let unit = number_of(unit, 255)? as u8;
    let fare = FareKey {
        carrier: carrier_of(carrier)?,
        from: place_of(from)?,
        to: place_of(to)?,
        basis: basis_of(basis)?,
    };
    Some(TicketLine::Component { unit, fare })
}

/// The name of a flight.
#[tactic(auto, unfolding(crate::specs::Lines::flight_in))]
fn flight_of(text: &[u8]) -> Option<TicketLine>
    ensures { result ≡ Lines.flight_in text.now }
{
    let (carrier, text) = word_of(text)?;
    let (number, text) = word_of(text)?;
    let (day, from) = word_of(text)?;
    let name = FlightName {
        carrier: carrier_of(carrier)?,
        number: flight_number_of(number)?,
        day: day_of(day).ok()?,
        from: place_of(from)?,
    };
    Some(TicketLine::Flight { name })
}

/// A flight's number, from 1 to 9999.
#[tactic(auto, unfolding(crate::specs::Lines::flight_number_in))]
fn flight_number_of(word: &[u8]) -> Option<u16>
    ensures { result ≡ Lines.flight_number_in word.now }
{
    let number = number_of(word, 9999)?;
    if number == 0 {
        None
    } else {
        Some(number as u16)
    }
}
