//! The order by price and code.
ghost use Rattle.std.specs.Prelude.{◌≡◌, ◌↔◌};
ghost use Rattle.fare_law.specs.Best.{Before};

use fare_law::Code;
use std::cmp::Ordering;

/// Compares by price, and at equal prices by code from the left; a code comes before each longer
/// one that begins with it.
pub fn cmp_key(a_price: u64, a: &Code, b_price: u64, b: &Code) -> Ordering
    ensures less { result ≡ Ordering.Less ↔ Before a_price a.now b_price b.now }
    ensures equal { result ≡ Ordering.Equal ↔ ((a_price ≡ b_price) × (a.now ≡ b.now)) }
    ensures greater { result ≡ Ordering.Greater ↔ Before b_price b.now a_price a.now }
{
    match a_price.cmp(&b_price) {
        Ordering::Equal => a.as_slice().cmp(&b.as_slice()),
        other => other,
    }
}
