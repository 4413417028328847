//! Dates as text.
ghost use Rattle.std.specs.Prelude.{◌≡◌, ◌+◌, ◌-◌, ◌/◌, ◌%◌, ◌<◌, ◌≤◌, pos, length, IfOk, IfErr, None, Some, if◌then◌else◌};
ghost use Rattle.std.specs.Result.{result_ok};
ghost use Rattle.std.specs.Str.{IsAscii};
ghost use Rattle.jiff_core.specs.Calendar.{days_from_civil, IsBetween};
ghost use Rattle.jiff_core.specs.Date.{epoch_day};
ghost use Rattle.market_time.specs.Dates as Dates;
ghost use Rattle.market_time.specs.Dates.{day_spelled, is_date, IsInCentury};

use crate::TimeFault;
use crate::digits::{has_two_digits, two_digits};
use jiff::civil::Date;
use jiff_core::civil::Date as PlainDate;

/// The day that `YYYY-MM-DD` spells, in days since 1970-01-01.
///
/// `BadDate` exactly where the text is no date from 2000-01-01 to 2099-12-31.
#[tactic(auto, unfolding(crate::specs::Dates::day_spelled))]
pub fn day_of(text: &[u8]) -> Result<i32, TimeFault>
    ensures day { result_ok result ≡ day_spelled text.now }
    ensures range { IfOk result IsInCentury }
    ensures fault { IfErr result (λ fault. fault ≡ TimeFault.BadDate) }
{
    if !has_date_form(text) {
        return Err(TimeFault::BadDate);
    }
    let year = 100 * u16::from(two_digits(text, 0)) + u16::from(two_digits(text, 2));
    day_number(year, two_digits(text, 5), two_digits(text, 8)).ok_or(TimeFault::BadDate)
}

/// The text `YYYY-MM-DD` of a day from 2000-01-01 to 2099-12-31, in days since 1970-01-01.
pub fn day_text(day: i32) -> [u8; 10]
    requires { IsInCentury day }
    ensures day { day_spelled result ≡ Some day }
    ensures ascii { IsAscii result }
{
    let date = date_on(day);
    let year = (date.year - 2000) as u8;
    let (month, day) = (date.month, date.day);
    [
        b'2',
        b'0',
        tens(year),
        units(year),
        b'-',
        tens(month),
        units(month),
        b'-',
        tens(day),
        units(day),
    ]
}

// The date of a day.
fn date_on(day: i32) -> PlainDate
    requires { IsInCentury day }
    ensures day { epoch_day result ≡ day }
    ensures year { IsBetween (pos 2000) (pos 2099) result.year }
{
    PlainDate::from_unix_epoch_day(i64::from(day)).unwrap()
}

// The digit that a number below 100 begins with.
fn tens(number: u8) -> u8
    requires { number < 100 }
    ensures { result ≡ 48 + number / 10 }
{
    b'0' + number / 10
}

// The digit that it ends with.
fn units(number: u8) -> u8
    ensures { result ≡ 48 + number % 10 }
{
    b'0' + number % 10
}

// Whether the text is ten bytes `YYYY-MM-DD`.
fn has_date_form(text: &[u8]) -> bool
    ensures { result ≡ Dates.has_date_form text.now }
{
    text.len() == 10
        && has_two_digits(text, 0)
        && has_two_digits(text, 2)
        && text[4] == b'-'
        && has_two_digits(text, 5)
        && text[7] == b'-'
        && has_two_digits(text, 8)
}

// The day of a date from 2000-01-01 to 2099-12-31 that the calendar has.
fn day_number(year: u16, month: u8, day: u8) -> Option<i32>
    requires month_in { month < 100 }
    requires day_in { day < 100 }
    ensures { result
        ≡ (if is_date year month day then Some (days_from_civil (pos year) month day) else None) }
{
    if year < 2000 || year > 2099 {
        return None;
    }
    let date = Date::new(year as i16, month as i8, day as i8).ok()?;
    Some(date.to_plain().to_unix_epoch_day())
}
