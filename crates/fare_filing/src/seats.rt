//! The text of seats by class.
ghost use Rattle.std.specs.Prelude.{◌≡◌};
ghost use Rattle.fare_law.specs.Limits.{AreSeats};
ghost use Rattle.fare_filing.specs.Text as Text;

use fare_law::ArrayVec;

/// The classes with at least one seat, ascending, as pairs of a letter and a digit, or `A0` where
/// there is none.
#[tactic(auto, using(crate::proofs::SeatLemmas::text_steps))]
pub fn seats_text(seats: &[u8; 32]) -> ArrayVec<u8, 64>
    requires { AreSeats seats.now }
    ensures { result ≡ Text.seats_text seats.now }
{
    let mut text = seat_pairs(seats);
    if text.len() != 0 {
        return text;
    }
    text.push(b'A');
    text.push(b'0');
    text
}

// The pairs of the classes that have a seat.
#[tactic(auto, using(crate::proofs::SeatLemmas::pair_steps))]
fn seat_pairs(seats: &[u8; 32]) -> ArrayVec<u8, 64>
    requires { AreSeats seats.now }
    ensures { result ≡ Text.pairs_from 65 seats.now }
{
    let mut text = ArrayVec::new();
    for class in 0..32 {
        let count = seats[class];
        if count != 0 {
            text.push(b'A' + class as u8);
            text.push(b'0' + count);
        }
    }
    text
}
