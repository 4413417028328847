//! The marks of a flight row: day shifts, weekdays.
ghost use Rattle.std.specs.Prelude.{◌≡◌, ◌<◌, ◌≤◌, ◌+◌, ◌^◌, length, IfSome};
ghost use Rattle.std.specs.Int.{IsInRange};
ghost use Rattle.fare_law.specs.Days.{IsShift};
ghost use Rattle.case_text.specs.Marks as Marks;

/// The day shift of an arrival: -1, 0, 1 or 2.
pub fn shift_of(text: &[u8]) -> Option<i8>
    ensures shift { result ≡ Marks.shift_of text.now }
    ensures range { IfSome result IsShift }
{
    if text == b"-1".as_slice() {
        Some(-1)
    } else if text == b"0".as_slice() {
        Some(0)
    } else if text == b"1".as_slice() {
        Some(1)
    } else if text == b"2".as_slice() {
        Some(2)
    } else {
        None
    }
}

/// Weekdays by their digits, ascending from 1 for Monday, at least one: bit d - 1 for weekday d.
pub fn weekdays_of(text: &[u8]) -> Option<u8>
    ensures days { result ≡ Marks.weekdays_of text.now }
    ensures range { IfSome result (IsInRange 1 127) }
{
    if text.is_empty() {
        None
    } else {
        weekdays_after(0, text)
    }
}

#[tactic(auto, using(crate::proofs::WeekdayBits::day_bits))]
fn weekdays_after(before: u8, text: &[u8]) -> Option<u8>
    requires { before ≤ 7 }
    ensures days { result ≡ Marks.weekdays_after before text.now }
    ensures bound { IfSome result (λ days. days + 2 ^ before ≤ 128) }
    ensures some { IfSome result (λ days. 0 < length text.now → 1 ≤ days) }
{
    match text {
        [] => Some(0),
        [digit, rest @ ..] => {
            if before + b'0' < *digit && *digit <= b'7' {
                let later = weekdays_after(*digit - b'0', rest)?;
                Some((1 << (*digit - b'1')) + later)
            } else {
                None
            }
        }
    }
}
