//! Times of day, offsets from UTC and instants.
ghost use Rattle.std.specs.Prelude.{◌≡◌, ◌+◌, ◌*◌, ◌<◌, ◌≤◌, pos, neg_ℤ, ◌+ℤ◌, ◌-ℤ◌, ◌*ℤ◌, ◌≤ℤ◌, length, IfOk, IfErr, IsTrue};
ghost use Rattle.std.specs.Result.{result_ok};
ghost use Rattle.jiff_core.specs.Calendar.{IsWithin};
ghost use Rattle.market_time.specs.Clock as Clock;
ghost use Rattle.market_time.specs.Clock.{minute_spelled, offset_spelled};

use crate::TimeFault;
use crate::digits::{has_two_digits, two_digits};

/// The minute of the day that `HH:MM` spells, from 0 for 00:00 to 1439 for 23:59.
///
/// `BadTime` exactly where the text is no such time.
#[tactic(auto, unfolding(crate::specs::Clock::minute_spelled))]
pub fn minute_of(text: &[u8]) -> Result<u16, TimeFault>
    ensures minute { result_ok result ≡ minute_spelled text.now }
    ensures range { IfOk result (λ minute. minute < 1440) }
    ensures fault { IfErr result (λ fault. fault ≡ TimeFault.BadTime) }
{
    if text.len() != 5 || !has_clock_form(text, 0) || two_digits(text, 0) >= 24 {
        return Err(TimeFault::BadTime);
    }
    Ok(clock_minutes(text, 0))
}

/// The offset that `+HH:MM` or `-HH:MM` spells, in minutes from -840 to 840: local time less UTC.
///
/// `BadOffset` exactly where the text is no such offset of at most 14 hours.
#[tactic(auto, unfolding(crate::specs::Clock::offset_spelled))]
pub fn offset_of(text: &[u8]) -> Result<i16, TimeFault>
    ensures offset { result_ok result ≡ offset_spelled text.now }
    ensures range { IfOk result (IsWithin 840) }
    ensures fault { IfErr result (λ fault. fault ≡ TimeFault.BadOffset) }
{
    if text.len() != 6 || (text[0] != b'+' && text[0] != b'-') || !has_clock_form(text, 1) {
        return Err(TimeFault::BadOffset);
    }
    let minutes = clock_minutes(text, 1);
    if minutes > 14 * 60 {
        return Err(TimeFault::BadOffset);
    }
    let minutes = minutes as i16;
    Ok(if text[0] == b'-' { -minutes } else { minutes })
}

/// The instant of a local time, in minutes since 1970-01-01 00:00 UTC: `day` in days since
/// 1970-01-01, `minute` in minutes of that day, `offset` in minutes of local time less UTC.
pub fn instant(day: i32, minute: u16, offset: i16) -> i64
    ensures { result ≡ day *ℤ pos 1440 +ℤ pos minute -ℤ offset }
{
    i64::from(day) * 1440 + i64::from(minute) - i64::from(offset)
}

// Whether `HH:MM` with minutes below 60 stands at this place.
fn has_clock_form(text: &[u8], at: usize) -> bool
    requires { at + 5 ≤ length text.now }
    ensures { result ≡ Clock.has_clock_form text.now at }
{
    has_two_digits(text, at)
        && text[at + 2] == b':'
        && has_two_digits(text, at + 3)
        && two_digits(text, at + 3) < 60
}

// The minutes that `HH:MM` at this place comes to.
fn clock_minutes(text: &[u8], at: usize) -> u16
    requires within { at + 5 ≤ length text.now }
    requires form { IsTrue (Clock.has_clock_form text.now at) }
    ensures { result ≡ Clock.clock_minutes text.now at }
{
    60 * u16::from(two_digits(text, at)) + u16::from(two_digits(text, at + 3))
}
