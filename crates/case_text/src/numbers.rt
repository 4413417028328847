//! Numbers of a text.
ghost use Rattle.std.specs.Prelude.{◌≡◌, ◌≤◌, length, IfSome};
ghost use Rattle.std.specs.Int.{IsInRange};
ghost use Rattle.case_text.specs.Numbers.{leads_well as leading, read_on, number_spelled, number_within as within_of};

/// The number from `low` to `high` that the text spells in decimal digits, without sign or leading zero.
#[tactic(auto, using(crate::proofs::Digits::none_long))]
pub fn number_within(text: &[u8], low: u16, high: u16) -> Option<u16>
    ensures number { result ≡ within_of low high text.now }
    ensures range { IfSome result (IsInRange low high) }
{
    // Six digits without a leading zero are above every u16.
    if text.len() > 5 {
        return None;
    }
    let number = spelled(text)?;
    if low as u32 <= number && number <= high as u32 {
        Some(number as u16)
    } else {
        None
    }
}

/// The number that at most five characters spell.
fn spelled(text: &[u8]) -> Option<u32>
    requires { length text.now ≤ 5 }
    ensures { result ≡ number_spelled text.now }
{
    if leads_well(text) { digits(text) } else { None }
}

fn leads_well(text: &[u8]) -> bool
    ensures { result ≡ leading text.now }
{
    match text {
        [] => false,
        [_] => true,
        [first, ..] => *first != b'0',
    }
}

/// The number that at most five digits write.
#[tactic(auto, using(crate::proofs::Digits::digit_steps))]
fn digits(text: &[u8]) -> Option<u32>
    requires { length text.now ≤ 5 }
    ensures { result ≡ read_on 0 text.now }
{
    let mut number = 0;
    for i in 0..text.len() {
        let byte = text[i];
        if !byte.is_ascii_digit() {
            return None;
        }
        number = 10 * number + (byte - b'0') as u32;
    }
    Some(number)
}
