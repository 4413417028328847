//! Two digits in a text, read and written.
ghost use Rattle.std.specs.Prelude.{◌≡◌, ◌+◌, ◌*◌, ◌≤◌, ◌<◌, ◌==◌, length, IsTrue, slice_index};
ghost use Rattle.market_time.specs.Digits as Digits;

/// Whether the byte at `at` and the next one are digits.
pub(crate) fn has_two_digits(text: &[u8], at: usize) -> bool
    requires { at + 2 ≤ length text.now }
    ensures { result ≡ Digits.has_two_digits text.now at }
{
    text[at].is_ascii_digit() && text[at + 1].is_ascii_digit()
}

/// The number that two digits write.
pub(crate) fn two_digits(text: &[u8], at: usize) -> u8
    requires within { at + 2 ≤ length text.now }
    requires digits { IsTrue (Digits.has_two_digits text.now at) }
    ensures value { result ≡ Digits.two_digits text.now at }
    ensures bound { result < 100 }
{
    10 * (text[at] - b'0') + (text[at + 1] - b'0')
}
