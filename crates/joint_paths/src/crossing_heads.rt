//! Heads that cross into the next slice.
ghost use Rattle.std.specs.Prelude.{◌≡◌, ◌<◌, ◌≤◌, ◌∷◌, IfNone, IfSome, IsTrue, List as Items, length, take};
ghost use Rattle.fare_ends.specs.NumberedFlights.{BeginsWith};
ghost use Rattle.fare_ends.specs.Legs.{HasLegs};
ghost use Rattle.fare_law.specs.declared.flights.Flight.{Flight as DatedFlight};
ghost use Rattle.fare_law.specs.Parts.{Numbers};
ghost use Rattle.flight_paths.specs.declared.positions.Path.{Path as PathData};
ghost use Rattle.flight_paths.specs.declared.positions.Position.{Position as PositionData};
ghost use Rattle.flight_paths.specs.Heads.{Crossing, Follows, IsHead};
ghost use Rattle.flight_paths.specs.Marks.{HasBits};
ghost use Rattle.flight_paths.specs.Ways.{arrivals_of};
ghost use Rattle.joint_paths.specs.Heads.{IsCrossingHead};

use crate::marks::{bit_of, mark_of};
use fare_ends::TableCase;
use fare_law::{Carrier, Flight};
use flight_paths::{Path, Position, heads_are_short};

/// A head that crosses, on which some class of seats is open.
#[derive(Clone, Copy)]
pub struct CrossingHead {
    pub flights: [u32; 3],
    /// How many flights it has.
    pub count: u32,
    pub carrier: Carrier,
    /// The day of its first flight.
    pub first: i32,
    /// The classes of seats that are open in all of its flights.
    pub classes: u32,
    /// The numbers of the flights that may be next lie from `lo` to `hi` - 1.
    pub lo: u32,
    pub hi: u32,
    /// The mark of the places that it calls at.
    pub mark: u64,
}

/// What heads are put in order by: first the bucket, then shorter ones and those that may go on earlier. As numbers, since
/// letters would be compared one by one.
#[derive(Clone, Copy, PartialEq, Eq, PartialOrd, Ord)]
pub struct HeadOrder {
    bucket: u64,
    within: u64,
}

impl CrossingHead {
    /// The numbers of its flights.
    pub fn numbers(&self) -> &[u32]
        requires { self.now.count ≤ 3 }
        ensures { result.now ≡ take self.now.count self.now.flights }
    {
        &self.flights[..self.count as usize]
    }

    /// What it is put in order by.
    pub fn order(&self) -> HeadOrder {
        let [a, b] = self.carrier.0;
        let [c, d, e, f] = self.first.to_be_bytes();
        HeadOrder {
            bucket: u64::from_be_bytes([0, 0, a, b, c, d, e, f]),
            within: u64::from(self.count) * 4_294_967_296 + u64::from(self.lo),
        }
    }

    /// Whether it is of the bucket of another.
    pub fn is_beside(&self, other: &CrossingHead) -> bool
        ensures carrier { IsTrue result → self.now.carrier ≡ other.now.carrier }
        ensures first { IsTrue result → self.now.first ≡ other.now.first }
    {
        self.carrier.is(other.carrier) && self.first == other.first
    }
}

/// The head of a path from a position, with its first flight and the classes of seats that are open in all of its flights.
/// None only where no tail follows it.
pub fn crossing_head(
    case: &TableCase<'_>,
    at: &Position,
    path: &Path,
    first: &Flight,
    classes: u32,
) -> Option<CrossingHead>
    requires known { at.now.slice < length case.now.request.now.slices }
    requires head { (fs : Items DatedFlight) × IsHead case.now.book.now case.now.request.now.slices at.now path.now.flights fs path.now.after }
    requires first { BeginsWith case.now.book.now path.now.flights first.now }
    requires classes { (fs : Items DatedFlight) → Numbers case.now.book.now path.now.flights fs → HasLegs case.now.book.now case.now.request.now fs classes }
    ensures some { IfSome result (λ h. IsCrossingHead case.now.book.now case.now.request.now at.now path.now h × (h.carrier ≡ first.now.carrier) × (h.first ≡ first.now.day) × (h.classes ≡ classes)) }
    ensures none { IfNone result ((tail : PathData) → Follows case.now.book.now case.now.request.now.slices at.now path.now tail → ⊥) }
{
    heads_are_short();
    let Some(middle) = crossing(case, at, path) else {
        return None;
    };
    if middle.hi <= middle.lo {
        return None;
    }
    let numbers = path.flights.as_slice();
    let mark = head_mark(case, at, numbers);
    Some(head_with(numbers, first, &middle, classes, mark))
}

/// The mark of the places that a head calls at.
fn head_mark(case: &TableCase<'_>, at: &Position, numbers: &[u32]) -> u64
    requires { (fs : Items DatedFlight) × Numbers case.now.book.now numbers.now fs }
    ensures { (fs : Items DatedFlight) → Numbers case.now.book.now numbers.now fs → HasBits result (at.now.place ∷ arrivals_of fs) }
{
    bit_of(at.place) | mark_of(case, numbers)
}

/// A head of these flights, by its first one, the position where it stands, the classes of seats and the mark.
fn head_with(
    numbers: &[u32],
    first: &Flight,
    middle: &Position,
    classes: u32,
    mark: u64,
) -> CrossingHead
    requires { length numbers.now ≤ 3 }
    ensures count { result.count ≡ length numbers.now }
    ensures numbers { take (length numbers.now) result.flights ≡ numbers.now }
    ensures carrier { result.carrier ≡ first.now.carrier }
    ensures first { result.first ≡ first.now.day }
    ensures classes { result.classes ≡ classes }
    ensures lo { result.lo ≡ middle.now.lo }
    ensures hi { result.hi ≡ middle.now.hi }
    ensures mark { result.mark ≡ mark }
{
    CrossingHead {
        flights: three(numbers),
        count: numbers.len() as u32,
        carrier: first.carrier,
        first: first.day,
        classes,
        lo: middle.lo,
        hi: middle.hi,
        mark,
    }
}

/// Where a head stands that crosses into the next slice. None exactly where it doesn't.
fn crossing(case: &TableCase<'_>, at: &Position, path: &Path) -> Option<Position>
    requires known { at.now.slice < length case.now.request.now.slices }
    requires head { (fs : Items DatedFlight) × IsHead case.now.book.now case.now.request.now.slices at.now path.now.flights fs path.now.after }
    ensures some { IfSome result (Crossing case.now.book.now case.now.request.now.slices at.now path.now) }
    ensures none { IfNone result ((middle : PositionData) → Crossing case.now.book.now case.now.request.now.slices at.now path.now middle → ⊥) }
{
    let Some(middle) = path.after else {
        return None;
    };
    if middle.slice == at.slice {
        return None;
    }
    let slices = case.request.slices.as_slice();
    if !middle.place.is(slices[at.slice as usize].to) {
        return None;
    }
    Some(middle)
}

/// At most three numbers, and then zeros.
fn three(numbers: &[u32]) -> [u32; 3]
    ensures { length numbers.now ≤ 3 → take (length numbers.now) result ≡ numbers.now }
{
    match numbers {
        [a] => [*a, 0, 0],
        [a, b] => [*a, *b, 0],
        [a, b, c] => [*a, *b, *c],
        _ => [0, 0, 0],
    }
}
