//! The texts of a seat row: its day, and its seats by class.
ghost use Rattle.std.specs.Prelude.{◌≡◌, IfSome};
ghost use Rattle.fare_law.specs.Limits.{AreSeats};
ghost use Rattle.market_time.specs.Dates.{IsInCentury};
ghost use Rattle.name_text.specs.Seats as Seats;

use market_time::day_of;

/// The day of a seat row: a date, or None inside for `*`, which stands for all days.
pub fn seat_day_of(text: &[u8]) -> Option<Option<i32>>
    ensures day { result ≡ Seats.seat_day_of text.now }
    ensures form { IfSome result (λ day. IfSome day IsInCentury) }
{
    if text == b"*".as_slice() {
        Some(None)
    } else {
        day_of(text).ok().map(Some)
    }
}

/// Seats as pairs of a class letter and a digit, no letter twice, at least one pair.
pub fn seats_of(text: &[u8]) -> Option<[u8; 32]>
    ensures seats { result ≡ Seats.seats_of text.now }
    ensures form { IfSome result AreSeats }
{
    if text.is_empty() {
        None
    } else {
        seats_in(text)
    }
}

// The seats of any number of such pairs, taken from the last one on.
fn seats_in(text: &[u8]) -> Option<[u8; 32]>
    ensures seats { result ≡ Seats.seats_in text.now }
    ensures form { IfSome result AreSeats }
{
    if text.len() % 2 == 1 {
        return None;
    }
    let mut named = [false; 32];
    let mut seats = [0; 32];
    for i in (0..text.len() / 2).rev() {
        let letter = text[2 * i];
        let digit = text[2 * i + 1];
        if !letter.is_ascii_uppercase() || !digit.is_ascii_digit() {
            return None;
        }
        let class = usize::from(letter - b'A');
        if named[class] {
            return None;
        }
        named[class] = true;
        seats[class] = digit - b'0';
    }
    Some(seats)
}
