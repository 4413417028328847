//! Numbers of options: one to ten decimal digits, within a range.
ghost use Rattle.std.specs.Prelude.{◌≡◌, ◌≤◌, true, IfSome};
ghost use Rattle.std.specs.Char.{is_ascii_digit};
ghost use Rattle.std.specs.List.{list_all};
ghost use Rattle.program_words.specs.Numbers as Numbers;
ghost use Rattle.program_words.specs.Texts.{text_of};

/// The most digits of a number.
const MOST_DIGITS: usize = 10;

/// The number that a text writes, where it lies from `low` to `high`.
fn number_in(text: &str, low: u32, high: u32) -> Option<u32>
    ensures number { result ≡ Numbers.number_in low high text.now }
    ensures within { IfSome result (λ n. n ≤ high) }
{
    if !is_numeral(text.as_bytes()) {
        return None;
    }
    within(value(text)?, low, high)
}

fn within(number: u32, low: u32, high: u32) -> Option<u32>
    ensures number { result ≡ Numbers.within low high number }
    ensures within { IfSome result (λ n. n ≤ high) }
{
    if low <= number && number <= high {
        Some(number)
    } else {
        None
    }
}

/// The value of decimal digits, unless it is too great.
#[tactic(auto, using(crate::proofs::NumberLemmas::parsed))]
fn value(digits: &str) -> Option<u32>
    requires { Numbers.is_numeral digits.now ≡ true }
    ensures { result ≡ Numbers.value digits.now }
{
    digits.parse().ok()
}

/// Whether a text is one to ten decimal digits.
fn is_numeral(text: &[u8]) -> bool
    ensures { result ≡ Numbers.is_numeral text.now }
{
    1 <= text.len() && text.len() <= MOST_DIGITS && are_digits(text)
}

fn are_digits(text: &[u8]) -> bool
    ensures { result ≡ list_all is_ascii_digit text.now }
{
    text.iter().all(|byte| byte.is_ascii_digit())
}

/// The number of an option that must be given.
pub(crate) fn required(text: Option<&str>, low: u32, high: u32) -> Option<u32>
    ensures number { result ≡ Numbers.required low high (text_of text.entry) }
    ensures within { IfSome result (λ n. n ≤ high) }
{
    number_in(text?, low, high)
}

/// The number of an option that has a default.
pub(crate) fn defaulted(text: Option<&str>, low: u32, high: u32, default: u32) -> Option<u32>
    ensures { result ≡ Numbers.defaulted low high default (text_of text.entry) }
{
    match text {
        None => Some(default),
        Some(text) => number_in(text, low, high),
    }
}

/// The number of an option that may be left out.
pub(crate) fn optional(text: Option<&str>, low: u32, high: u32) -> Option<Option<u32>>
    ensures { result ≡ Numbers.optional low high (text_of text.entry) }
{
    match text {
        None => Some(None),
        Some(text) => Some(Some(number_in(text, low, high)?)),
    }
}
