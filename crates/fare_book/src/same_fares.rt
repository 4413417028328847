//! Whether two keys of fares are the same.
ghost use Rattle.std.specs.Prelude.{◌≡◌, bytes_eq};
ghost use Rattle.fare_law.specs.Book.{same_key};

use fare_law::FareKey;

/// Whether two keys are the same: letter by letter, since they are short, and what differs most first.
pub fn is_key(one: &FareKey, other: &FareKey) -> bool
    ensures { result ≡ same_key one.now other.now }
{
    are_letters(one.basis.0.as_slice(), other.basis.0.as_slice())
        && one.carrier.is(other.carrier)
        && one.from.is(other.from)
        && one.to.is(other.to)
}

fn are_letters(one: &[u8], other: &[u8]) -> bool
    ensures { result ≡ bytes_eq one.now other.now }
{
    match one {
        [] => other.is_empty(),
        [first, rest @ ..] => match other {
            [] => false,
            [letter, more @ ..] => *first == *letter && are_letters(rest, more),
        },
    }
}
