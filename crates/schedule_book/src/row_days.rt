//! The days that a row names and its flights on them.
ghost use Rattle.std.specs.Prelude.{◌≡◌, ◌+ℤ◌, ◌≤ℤ◌, ◌^◌, pos, neg_ℤ, true};
ghost use Rattle.fare_law.specs.Days.{weekday};
ghost use Rattle.fare_law.specs.Flights.{Dated, instant};
ghost use Rattle.schedule_book.specs.Days.{names};
ghost use Rattle.schedule_book.specs.Expansions.{name_of, number_of};

use crate::dated::{DatedNumber, FlightName};
use fare_law::{Flight, FlightRow};

/// 1 for Monday to 7 for Sunday.
pub fn weekday(day: i32) -> u8
    ensures { result ≡ weekday day }
{
    ((day.unsigned_abs() + 3) % 7 + 1) as u8
}

/// Minutes since the first day, in universal time, of a local time some days after a day.
fn instant(day: i32, shift: i8, minute: u16, offset: i16) -> i64
    ensures { result ≡ instant (day +ℤ shift) minute offset }
{
    minutes(days_after(day, shift), minute, offset)
}

/// Some days after a day.
fn days_after(day: i32, shift: i8) -> i64
    ensures value { result ≡ day +ℤ shift }
    ensures low { neg_ℤ (pos (2 ^ 40)) ≤ℤ result }
    ensures high { result ≤ℤ pos (2 ^ 40) }
{
    i64::from(day) + i64::from(shift)
}

/// Minutes since the first day, in universal time.
fn minutes(days: i64, minute: u16, offset: i16) -> i64
    requires low { neg_ℤ (pos (2 ^ 40)) ≤ℤ days }
    requires high { days ≤ℤ pos (2 ^ 40) }
    ensures { result ≡ instant days minute offset }
{
    days * 1440 + i64::from(minute) - i64::from(offset)
}

/// The instant at which the flight of a day departs.
pub fn departure(row: &FlightRow, day: i32) -> i64
    ensures { result ≡ instant day row.now.dep row.now.dep_offset }
{
    instant(day, 0, row.dep, row.dep_offset)
}

/// The instant at which the flight of a day arrives.
pub fn arrival(row: &FlightRow, day: i32) -> i64
    ensures { result ≡ instant (day +ℤ row.now.shift) row.now.arr row.now.arr_offset }
{
    instant(day, row.shift, row.arr, row.arr_offset)
}

/// Whether a row has a flight on a day.
pub fn names(row: &FlightRow, day: i32) -> bool
    ensures { result ≡ names row.now day }
{
    row.first <= day && day <= row.last && row.days & (1 << (weekday(day) - 1)) != 0
}

/// The flight of a row on a day that it names.
pub fn flight_on(row: &FlightRow, day: i32) -> Flight
    ensures flight { names row.now day ≡ true → Dated row.now result }
    ensures day { result.day ≡ day }
{
    Flight {
        carrier: row.carrier,
        number: row.number,
        from: row.from,
        to: row.to,
        day,
        minute: row.dep,
        dep: departure(row, day),
        arr: arrival(row, day),
    }
}

/// The number of a flight on its day.
pub fn number_of(flight: &Flight) -> DatedNumber
    ensures { result ≡ number_of flight.now }
{
    DatedNumber {
        carrier: flight.carrier,
        number: flight.number,
        from: flight.from,
        day: flight.day,
    }
}

/// What names the flights of a row.
pub fn name_of(row: &FlightRow) -> FlightName
    ensures { result ≡ name_of row.now }
{
    FlightName {
        carrier: row.carrier,
        number: row.number,
        from: row.from,
    }
}
