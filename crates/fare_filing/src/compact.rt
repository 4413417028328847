//! Filings of compact text with members ascending, read action by action: what puts a fare or seats is
//! read straight, and each other action by the tree of its own JSON. Any other text is `None`, and is for
//! the tree of its whole JSON.
ghost use Rattle.std.specs.Prelude.{◌≡◌, ◌++◌, ◌≤◌, length, codes, IfOk, IfSome, IsTrue, Ok};
ghost use Rattle.fare_law.specs.FilingLimits.{IsAction, IsFiling};
ghost use Rattle.fare_law.specs.Limits.{AreSeats, IsFare, IsSeatKey};
ghost use Rattle.fare_law.specs.Lists.{Each};
ghost use Rattle.fare_filing.specs.Compact.{Begins, Ended, SeatsAction, fare_action};
ghost use Rattle.fare_filing.specs.Reading.{filing_of};

use crate::fields::{
    basis_after, carrier_after, class_after, kind_after, number_after, place_after, text_after,
};
use crate::pieces::after;
use crate::room::room_for;
use crate::written::written_action;
use fare_law::{Action, Fare, FareKey, Filing, List, MOST_ACTIONS, Mem, SeatKey};
use name_text::{names_read_again, seat_day_of, seats_of};
use std::alloc::Global;

/// The filing of a compact text.
pub fn compact_filing(alloc: Global, bytes: &[u8]) -> Result<Option<Filing>, Mem>
    ensures filing { IfOk result (λ found. IfSome found (λ filing. filing_of bytes.now ≡ Ok filing)) }
    ensures limits { IfOk result (λ found. IfSome found IsFiling) }
{
    let Some(rest) = after(bytes, b"{\"actions\":[") else {
        return Ok(None);
    };
    let Some(actions) = compact_actions(alloc, rest)? else {
        return Ok(None);
    };
    let Ok(_text) = simdutf8::basic::from_utf8(bytes) else {
        return Ok(None);
    };
    Ok(Some(Filing { actions }))
}

// The actions of a list that has some, `MOST_ACTIONS` at most, and ends with the filing's object.
#[tactic(auto, using(crate::proofs::ListLemmas::list_steps))]
fn compact_actions(alloc: Global, text: &[u8]) -> Result<Option<List<Action>>, Mem>
    ensures actions { IfOk result (λ found. IfSome found (Ended text.now)) }
    ensures limits { IfOk result (λ found. IfSome found (Each IsAction)) }
    ensures few { IfOk result (λ found. IfSome found (λ actions. length actions ≤ MOST_ACTIONS)) }
{
    let mut actions = room_for(alloc, likely_count(text))?;
    let mut rest = text;
    for _ in 0..5000usize {
        let found = compact_action(alloc, rest)?;
        let Some((action, more)) = found else {
            return Ok(None);
        };
        actions.push(action)?;
        match after(more, b",") {
            Some(next) => rest = next,
            None if is_end(more) => return Ok(Some(actions)),
            None => return Ok(None),
        }
    }
    Ok(None)
}

// About as many actions as a text has: the shortest that puts a fare or seats has 78 bytes, and a comma follows.
fn likely_count(text: &[u8]) -> usize {
    (text.len() / 79).min(MOST_ACTIONS)
}

// Whether the list and the filing's object end here, and the text with them.
fn is_end(text: &[u8]) -> bool
    ensures { IsTrue result → text.now ≡ codes "]}" }
{
    text == b"]}".as_slice()
}

// The action that a text begins with, and what follows.
fn compact_action<'a>(alloc: Global, text: &'a [u8]) -> Result<Option<(Action, &'a [u8])>, Mem>
    ensures action { IfOk result (λ found. IfSome found (λ p. Begins text.now p.0 p.1.now)) }
    ensures limits { IfOk result (λ found. IfSome found (λ p. IsAction p.0)) }
{
    if let Some(read) = put_fare(text) {
        return Ok(Some(read));
    }
    if let Some(read) = put_seats(text) {
        return Ok(Some(read));
    }
    written_action(alloc, text)
}

// An action that puts a fare, and what follows.
#[tactic(auto, using(crate::proofs::CompactLemmas::fare_begins))]
fn put_fare<'a>(text: &'a [u8]) -> Option<(Action, &'a [u8])>
    ensures action { IfSome result (λ p. Begins text.now p.0 p.1.now) }
    ensures limits { IfSome result (λ p. IsAction p.0) }
{
    names_read_again();
    let (fare, rest) = fare_put(text)?;
    Some((Action::PutFare(fare), rest))
}

// The fare of such an action.
fn fare_put<'a>(text: &'a [u8]) -> Option<(Fare, &'a [u8])>
    ensures text { IfSome result (λ p. text.now ≡ fare_action p.0 p.1.now) }
    ensures limits { IfSome result (λ p. IsFare p.0) }
{
    let (amount, rest) = number_after(text, b"{\"put_fare\":{\"amount\":", 1_000_000_000)?;
    let (basis, rest) = basis_after(rest, b",\"basis\":\"")?;
    let (carrier, rest) = carrier_after(rest, b"\",\"carrier\":\"")?;
    let (class, rest) = class_after(rest, b"\",\"class\":\"")?;
    let (from, rest) = place_after(rest, b"\",\"from\":\"")?;
    let (kind, rest) = kind_after(rest, b"\",\"kind\":\"")?;
    let (rule, rest) = number_after(rest, b"\",\"rule\":", 9999)?;
    let (to, rest) = place_after(rest, b",\"to\":\"")?;
    let rest = after(rest, b"\"}}")?;
    let key = FareKey {
        carrier,
        from,
        to,
        basis,
    };
    let rule = rule as u16;
    let fare = Fare {
        key,
        class,
        kind,
        amount,
        rule,
    };
    Some((fare, rest))
}

// An action that puts seats, and what follows.
#[tactic(auto, using(crate::proofs::CompactLemmas::seats_begin))]
fn put_seats<'a>(text: &'a [u8]) -> Option<(Action, &'a [u8])>
    ensures action { IfSome result (λ p. Begins text.now p.0 p.1.now) }
    ensures limits { IfSome result (λ p. IsAction p.0) }
{
    names_read_again();
    let (key, seats, rest) = seats_put(text)?;
    Some((Action::PutSeats(key, seats), rest))
}

// What such an action names, and its seats.
fn seats_put<'a>(text: &'a [u8]) -> Option<(SeatKey, [u8; 32], &'a [u8])>
    ensures text { IfSome result (λ p. SeatsAction text.now p.0 p.1 p.2.now) }
    ensures key { IfSome result (λ p. IsSeatKey p.0) }
    ensures seats { IfSome result (λ p. AreSeats p.1) }
{
    let (carrier, rest) = carrier_after(text, b"{\"put_seats\":{\"carrier\":\"")?;
    let (date, rest) = text_after(rest, b"\",\"date\":\"")?;
    let (from, rest) = place_after(rest, b"\",\"from\":\"")?;
    let (number, rest) = number_after(rest, b"\",\"number\":", 9999)?;
    if number == 0 {
        return None;
    }
    let (seats, rest) = text_after(rest, b",\"seats\":\"")?;
    let rest = after(rest, b"\"}}")?;
    let day = seat_day_of(date)?;
    let seats = seats_of(seats)?;
    let number = number as u16;
    let key = SeatKey {
        carrier,
        number,
        from,
        day,
    };
    Some((key, seats, rest))
}
