//! What a component pays of its fare's amount.
ghost use Rattle.std.specs.Prelude.{◌≡◌, ◌≤◌};
ghost use Rattle.fare_law.specs.Parts as Parts;

use fare_law::{Fare, FareKind};

/// What the fare itself costs for one component, in the unit of all amounts: the fare's amount, or for
/// a round trip fare (kind R), whose amount is even, half of it. Half of an odd amount is rounded down.
pub fn share(fare: &Fare) -> u64
    ensures value { result ≡ Parts.share fare.now.kind fare.now.amount }
    ensures low { result ≤ fare.now.amount }
{
    match fare.kind {
        FareKind::R => fare.amount / 2,
        FareKind::O | FareKind::S => fare.amount,
    }
}
