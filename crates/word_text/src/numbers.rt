//! Numbers in a text.
ghost use Rattle.std.specs.Int.{IsInRange};
ghost use Rattle.std.specs.Prelude.{◌≡◌, ◌+◌, ◌-◌, ◌*◌, ◌^◌, ◌↔◌, ◌≤◌, IfSome, IsTrue, MatchOption};
ghost use Rattle.word_text.specs.Words.{BeginsAsNumber, number_in};

/// The number up to `most` that is all that the text writes: decimal digits, without sign or leading
/// zero.
#[tactic(auto, using(crate::proofs::NumberLemmas::number_steps))]
pub fn number_of(text: &[u8], most: u64) -> Option<u64>
    ensures value { result ≡ number_in most text.now }
    ensures within { IfSome result (λ n. n ≤ most) }
{
    let number = number(text)?;
    if number <= most { Some(number) } else { None }
}

// The number that is all that the text writes.
#[tactic(auto, using(crate::proofs::NumberLemmas::number_steps))]
fn number(text: &[u8]) -> Option<u64>
    ensures { result ≡ number_in (2 ^ 64 - 1) text.now }
{
    if !begins_as_number(text) {
        return None;
    }
    let mut number: u64 = 0;
    for byte in text {
        if !byte.is_ascii_digit() {
            return None;
        }
        number = with_digit(number, *byte)?;
    }
    Some(number)
}

// A number with one digit more. None where it doesn't fit.
fn with_digit(number: u64, digit: u8) -> Option<u64>
    requires { IsInRange 48 57 digit }
    ensures { MatchOption result (2 ^ 64 ≤ number * 10 + (digit - 48)) (λ n. n ≡ number * 10 + (digit - 48)) }
{
    number.checked_mul(10)?.checked_add(u64::from(digit - b'0'))
}

// Whether the text begins with a digit that isn't 0, or is `0`: no sign, no leading zero.
fn begins_as_number(text: &[u8]) -> bool
    ensures { IsTrue result ↔ BeginsAsNumber text.now }
{
    match text {
        [b'0'] => true,
        [b'1'..=b'9', ..] => true,
        _ => false,
    }
}
