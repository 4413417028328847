//! Reading a residual's text.
ghost use Rattle.std.specs.Prelude.{◌≡◌, ◌↔◌, MatchOption, None, Some};
ghost use Rattle.residual_keys.specs.ResidualReading as Reading;
ghost use Rattle.residual_keys.specs.ResidualText.{IsWritten, Spells, residual_text};
ghost use Rattle.residual_keys.specs.Residuals.{State};

use crate::words::{byte_of, carriers_of, day_of, place_number_of, rules_of, set_day_of, via_of};
use crate::{Residual, TicketPart};
use fare_law::Place;
use flight_paths::Position;
use name_text::place_of;
use open_unit::{CarrierMark, OpenUnit, RuleMark};
use word_text::{cut, cut_last, cuts_tell, numbers_tell};

/// The parts of a residual, before it is known whether they make one.
#[derive(Clone, Copy)]
struct Parts {
    at: Position,
    first: Option<OpenUnit>,
    second: Option<OpenUnit>,
    part: TicketPart,
}

/// Where an open unit begins and ends, its components and its first day.
#[derive(Clone, Copy)]
struct Opening {
    origin: Place,
    end: Place,
    count: u8,
    first_day: i32,
}

/// The days that an open unit's rules set.
#[derive(Clone, Copy)]
struct SetDays {
    least: Option<i32>,
    greatest: Option<i32>,
    by: Option<i32>,
}

/// What an open unit may still become.
#[derive(Clone, Copy)]
struct UnitMarks {
    kinds: u8,
    partner: u8,
    carrier: CarrierMark,
    rule: RuleMark,
}

/// The residual whose text the bytes are. None exactly where they are the text of no residual whose
/// names are well formed and whose numbers fit their fields.
pub fn read_residual(bytes: &[u8]) -> Option<Residual>
    ensures { (x : State) → (result ≡ Some x) ↔ Spells bytes.now x }
{
    cuts_tell();
    numbers_tell();
    let parts = parts_of(bytes)?;
    Residual::checked(parts.at, parts.first, parts.second, parts.part)
}

/// A residual whose names are well formed and whose numbers fit their fields has a text of its own:
/// no other one has the same.
pub fn one_residual_text()
    ensures { (x y : State) → IsWritten x → IsWritten y → residual_text x ≡ residual_text y → x ≡ y }
{
    cuts_tell();
    numbers_tell();
}

/// The parts of a residual, whether they make one or not.
#[tactic(auto, unfolding(crate::specs::ResidualReading::parts_in))]
fn parts_of(text: &[u8]) -> Option<Parts>
    ensures { result ≡ Reading.parts_in text.now }
{
    let (at, rest) = position_of(text)?;
    let (units, part) = cut_last(rest, b' ')?;
    let (first, second) = units_of(units)?;
    let part = part_of(part)?;
    Some(Parts {
        at,
        first,
        second,
        part,
    })
}

/// A position, and what follows it after a space.
#[tactic(auto, unfolding(crate::specs::ResidualReading::position_in))]
pub fn position_of(text: &[u8]) -> Option<(Position, &[u8])>
    ensures { MatchOption result (Reading.position_in text.now ≡ None)
        (λ x. Reading.position_in text.now ≡ Some (x.0, x.1.now)) }
{
    let (slice, text) = cut(text, b' ')?;
    let (leg, text) = cut(text, b' ')?;
    let (place, text) = cut(text, b' ')?;
    let (via, text) = cut(text, b' ')?;
    let (lo, text) = cut(text, b' ')?;
    let (hi, text) = cut(text, b' ')?;
    let at = Position {
        slice: byte_of(slice)?,
        leg: byte_of(leg)?,
        place: place_of(place)?,
        via: via_of(via)?,
        lo: place_number_of(lo)?,
        hi: place_number_of(hi)?,
    };
    Some((at, text))
}

// No open unit, one, or two.
#[tactic(auto, unfolding(crate::specs::ResidualReading::units_in))]
fn units_of(text: &[u8]) -> Option<(Option<OpenUnit>, Option<OpenUnit>)>
    ensures { MatchOption result (Reading.units_in text.now ≡ None)
        (λ x. Reading.units_in text.now ≡ Some (x.0, x.1)) }
{
    if text == b"-".as_slice() {
        return Some((None, None));
    }
    let Some((first, second)) = cut(text, b'/') else {
        return Some((Some(unit_of(text)?), None));
    };
    Some((Some(unit_of(first)?), Some(unit_of(second)?)))
}

/// An open unit, whether it lies in its ranges or not.
#[tactic(auto, unfolding(crate::specs::ResidualReading::unit_in))]
pub fn unit_of(text: &[u8]) -> Option<OpenUnit>
    ensures { result ≡ Reading.unit_in text.now }
{
    let (opening, text) = opening_of(text)?;
    let (days, text) = days_of(text)?;
    let marks = marks_of(text)?;
    Some(OpenUnit {
        origin: opening.origin,
        end: opening.end,
        count: opening.count,
        first_day: opening.first_day,
        least: days.least,
        greatest: days.greatest,
        by: days.by,
        kinds: marks.kinds,
        partner: marks.partner,
        carrier: marks.carrier,
        rule: marks.rule,
    })
}

/// Where a unit begins and how far it has come, and what follows after a colon.
#[tactic(auto, unfolding(crate::specs::ResidualReading::opening_in))]
fn opening_of(text: &[u8]) -> Option<(Opening, &[u8])>
    ensures { MatchOption result (Reading.opening_in text.now ≡ None)
        (λ x. Reading.opening_in text.now ≡ Some (x.0, x.1.now)) }
{
    let (origin, text) = cut(text, b'>')?;
    let (end, text) = cut(text, b':')?;
    let (count, text) = cut(text, b':')?;
    let (first_day, text) = cut(text, b':')?;
    let opening = Opening {
        origin: place_of(origin)?,
        end: place_of(end)?,
        count: byte_of(count)?,
        first_day: day_of(first_day)?,
    };
    Some((opening, text))
}

/// The days that a unit's rules set, and what follows them after a colon.
#[tactic(auto, unfolding(crate::specs::ResidualReading::days_in))]
fn days_of(text: &[u8]) -> Option<(SetDays, &[u8])>
    ensures { MatchOption result (Reading.days_in text.now ≡ None)
        (λ x. Reading.days_in text.now ≡ Some (x.0, x.1.now)) }
{
    let (least, text) = cut(text, b':')?;
    let (greatest, text) = cut(text, b':')?;
    let (by, text) = cut(text, b':')?;
    let days = SetDays {
        least: set_day_of(least)?,
        greatest: set_day_of(greatest)?,
        by: set_day_of(by)?,
    };
    Some((days, text))
}

/// What a unit may still become.
#[tactic(auto, unfolding(crate::specs::ResidualReading::marks_in))]
fn marks_of(text: &[u8]) -> Option<UnitMarks>
    ensures { result ≡ Reading.marks_in text.now }
{
    let (kinds, text) = cut(text, b':')?;
    let (partner, text) = cut(text, b':')?;
    let (carrier, rule) = cut(text, b':')?;
    Some(UnitMarks {
        kinds: byte_of(kinds)?,
        partner: byte_of(partner)?,
        carrier: carriers_of(carrier)?,
        rule: rules_of(rule)?,
    })
}

/// A ticket part, whether it lies in its ranges or not.
#[tactic(auto, unfolding(crate::specs::ResidualReading::part_in))]
pub fn part_of(text: &[u8]) -> Option<TicketPart>
    ensures { result ≡ Reading.part_in text.now }
{
    let (units, text) = cut(text, b':')?;
    let (ends, carrier) = cut(text, b':')?;
    Some(TicketPart {
        units: byte_of(units)?,
        ends: byte_of(ends)?,
        carrier: carriers_of(carrier)?,
    })
}
