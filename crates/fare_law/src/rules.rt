//! A fare's rule: one optional record for each category.
ghost use Rattle.std.specs.Prelude.{◌≡◌, ◌↔◌, IsTrue};

use crate::{ArrayVec, Carrier, Place};

/// The kinds of priceable units.
#[derive(Clone, Copy, Default, PartialEq, Eq, Debug)]
pub enum UnitKind {
    #[default]
    OneWay,
    RoundTrip,
    OpenJaw,
    Circle,
}

/// Category 2: days and times of a component's first departure.
#[derive(PartialEq, Eq, Debug, Drop)]
pub struct DayTime {
    /// Weekdays, 1 for Monday to 7 for Sunday, ascending.
    pub days: ArrayVec<u8, 7>,
    /// The first and the last local minute, 0 to 1439.
    pub from: u16,
    pub to: u16,
}

/// Days from the first to the last.
#[derive(Clone, Copy, Default, PartialEq, Eq, Debug)]
pub struct DayRange {
    pub first: i32,
    pub last: i32,
}

/// A carrier's flight numbers from low to high.
#[derive(Clone, Copy, Default, PartialEq, Eq, Debug)]
pub struct FlightRange {
    pub carrier: Carrier,
    pub low: u16,
    pub high: u16,
}

/// Category 4: the only flights, or the flights that are excluded.
#[derive(PartialEq, Eq, Debug, Drop)]
pub struct FlightRule {
    pub allow: bool,
    pub flights: ArrayVec<FlightRange, 16>,
}

/// Category 6: the least days of stay, and whether a Sunday has to lie before the return.
#[derive(Clone, Copy, PartialEq, Eq, Debug)]
pub struct MinStay {
    pub days: u16,
    pub sunday: bool,
}

/// Category 8: how many stopovers, the charge for each, and where.
#[derive(PartialEq, Eq, Debug, Drop)]
pub struct StopRule {
    pub max: u8,
    pub charge: u64,
    pub places: Option<ArrayVec<Place, 16>>,
}

/// Category 9: how many transfers, and whether every flight is the fare's carrier's.
#[derive(Clone, Copy, PartialEq, Eq, Debug)]
pub struct TransferRule {
    pub max: u8,
    pub online: bool,
}

/// What category 10 asks of the fares of one unit.
#[derive(Clone, Copy, PartialEq, Eq, Debug)]
pub enum Partners {
    Any,
    SameCarrier,
    SameRule,
}

/// What category 10 asks of the fares and units of the whole ticket.
#[derive(Clone, Copy, PartialEq, Eq, Debug)]
pub enum EndOnEnd {
    Free,
    SameCarrier,
    Never,
}

/// Category 10: combinations.
#[derive(PartialEq, Eq, Debug, Drop)]
pub struct CombineRule {
    pub kinds: ArrayVec<UnitKind, 4>,
    pub partners: Partners,
    pub end_on_end: EndOnEnd,
}

/// An entry of category 12: an amount for each flight that it fits.
#[derive(Clone, Copy, Default, PartialEq, Eq, Debug)]
pub struct Surcharge {
    pub carrier: Carrier,
    pub low: u16,
    pub high: u16,
    pub first: i32,
    pub last: i32,
    pub amount: u64,
}

/// Category 14: travel dates.
#[derive(PartialEq, Eq, Debug, Drop)]
pub struct TravelRule {
    pub ranges: Option<ArrayVec<DayRange, 8>>,
    pub by: Option<i32>,
}

/// The rule of a fare. An absent category restricts nothing, but that the first flight of a
/// component is then of the fare's carrier where category 9 is absent.
#[derive(Default, PartialEq, Eq, Debug, Drop)]
pub struct Rule {
    pub cat2: Option<DayTime>,
    pub cat3: Option<ArrayVec<DayRange, 8>>,
    pub cat4: Option<FlightRule>,
    pub cat5: Option<u16>,
    pub cat6: Option<MinStay>,
    pub cat7: Option<u16>,
    pub cat8: Option<StopRule>,
    pub cat9: Option<TransferRule>,
    pub cat10: Option<CombineRule>,
    pub cat12: Option<ArrayVec<Surcharge, 8>>,
    pub cat14: Option<TravelRule>,
}

impl Rule {
    /// Whether it is the same rule.
    pub fn is(&self, other: &Rule) -> bool
        ensures { IsTrue result ↔ (self.now ≡ other.now) }
    {
        self == other
    }
}
