//! Whether positions are one.
ghost use Rattle.std.specs.Prelude.{◌≡◌, ◌↔◌, IsTrue};

use fare_law::Place;
use flight_paths::Position;

/// Whether the positions are one, or there is none either time.
pub fn same_after(one: &Option<Position>, other: &Option<Position>) -> bool
    ensures { IsTrue result ↔ (one.now ≡ other.now) }
{
    match (one, other) {
        (Some(one), Some(other)) => same_position(one, other),
        (None, None) => true,
        _ => false,
    }
}

/// Whether the positions are one.
pub fn same_position(one: &Position, other: &Position) -> bool
    ensures { IsTrue result ↔ (one.now ≡ other.now) }
{
    one.slice == other.slice
        && one.leg == other.leg
        && one.place.is(other.place)
        && same_via(&one.via, &other.via)
        && one.lo == other.lo
        && one.hi == other.hi
}

fn same_via(one: &Option<Place>, other: &Option<Place>) -> bool
    ensures { IsTrue result ↔ (one.now ≡ other.now) }
{
    match (one, other) {
        (Some(one), Some(other)) => one.is(*other),
        (None, None) => true,
        _ => false,
    }
}
