//! Seat rows as JSON values.
ghost use Rattle.std.specs.Prelude.{◌≡◌, ◌≤◌, length, IfOk, IfSome, Some};
ghost use Rattle.std.specs.Str.{IsAscii};
ghost use Rattle.serde_json.specs.Data.{object};
ghost use Rattle.serde_json.specs.View.{view, members_view};
ghost use Rattle.fare_law.specs.Limits.{AreSeats, IsSeatKey};
ghost use Rattle.market_time.specs.Dates.{IsInCentury};
ghost use Rattle.name_text.specs.Seats.{seat_day_of};
ghost use Rattle.fare_filing.specs.Text.{WritesSeatKey, WritesSeats, seat_key_data, seats_data};

use crate::members::put_text;
use crate::seats::seats_text;
use fare_law::{ArrayVec, Mem, SeatKey};
use market_time::day_text;
use name_text::{ascii_text, carrier_text, place_text};
use serde_json::{Map, Value, put};
use std::alloc::{AllocError, Global};

/// The value of a seat row within its limits.
#[tactic(auto, using(crate::proofs::SeatLemmas::seats_text_is_ascii))]
pub fn seats_value(alloc: Global, key: &SeatKey, seats: &[u8; 32]) -> Result<Value, Mem>
    requires key { IsSeatKey key.now }
    requires seats { AreSeats seats.now }
    ensures { IfOk result (λ value. WritesSeats key.now seats.now (view value)) }
{
    let date = date_text(key.day);
    let seats = seats_text(seats);
    Ok(seats_json(
        alloc,
        key,
        ascii_text(date.as_slice()),
        ascii_text(seats.as_slice()),
    )?)
}

/// The value of what names a seat row.
pub fn seat_key_value(alloc: Global, key: &SeatKey) -> Result<Value, Mem>
    requires { IsSeatKey key.now }
    ensures { IfOk result (λ value. WritesSeatKey key.now (view value)) }
{
    let date = date_text(key.day);
    Ok(seat_key_json(alloc, key, ascii_text(date.as_slice()))?)
}

fn seats_json(alloc: Global, key: &SeatKey, date: &str, seats: &str) -> Result<Value, AllocError>
    requires { IsSeatKey key.now }
    ensures { IfOk result (λ value. view value ≡ seats_data key.now date.now seats.now) }
{
    let mut members = key_members(alloc, key, date)?;
    put_text(&mut members, alloc, "seats", seats)?;
    Ok(Value::Object(members))
}

fn seat_key_json(alloc: Global, key: &SeatKey, date: &str) -> Result<Value, AllocError>
    requires { IsSeatKey key.now }
    ensures { IfOk result (λ value. view value ≡ seat_key_data key.now date.now) }
{
    Ok(Value::Object(key_members(alloc, key, date)?))
}

// The members of what names a seat row.
fn key_members(alloc: Global, key: &SeatKey, date: &str) -> Result<Map<String, Value>, AllocError>
    requires { IsSeatKey key.now }
    ensures { IfOk result (λ members. object (members_view members.entries) ≡ seat_key_data key.now date.now) }
{
    let mut members = Map::new(alloc);
    put_text(&mut members, alloc, "carrier", carrier_text(&key.carrier))?;
    put_text(&mut members, alloc, "date", date)?;
    put_text(&mut members, alloc, "from", place_text(&key.from))?;
    put(&mut members, alloc, "number", Value::from(key.number))?;
    Ok(members)
}

// The day of a seat row as text: a date, or `*` for all days.
#[tactic(auto, using(crate::proofs::DateLemmas::date_rules))]
fn date_text(day: Option<i32>) -> ArrayVec<u8, 10>
    requires { IfSome day IsInCentury }
    ensures day { seat_day_of result ≡ Some day }
    ensures ascii { IsAscii result }
{
    match day {
        Some(day) => at_most_ten(&day_text(day)),
        None => at_most_ten(b"*"),
    }
}

// The bytes of a short text.
fn at_most_ten(text: &[u8]) -> ArrayVec<u8, 10>
    requires { length text.now ≤ 10 }
    ensures { result ≡ text.now }
{
    let mut bytes = ArrayVec::new();
    for byte in text {
        bytes.push(*byte);
    }
    bytes
}
