//! Demands on units.
ghost use Rattle.std.specs.Prelude.{◌≡◌, ◌↔◌, ◌≤ℤ◌, pos, IsTrue};
ghost use Rattle.fare_rules.specs.Demands as Demands;
ghost use Rattle.fare_rules.specs.Demands.{AtMost, MayReturn, demand_of, met, has_kind, later_of, earlier_of, least_stay, greatest_stay, by_day};
ghost use Rattle.fare_rules.specs.Meeting.{MeetsBoth};
ghost use Rattle.fare_rules.specs.Ranges.{StaysInRange, DemandInRange};

use crate::kinds::{kind_number, kinds_of};
use fare_law::{CombineRule, MinStay, Partners, Rule, TravelRule, UnitKind};
use market_time::first_sunday_after;

/// What the fares of a unit ask of it. An absent day asks nothing.
#[derive(Clone, Copy, PartialEq, Eq, Debug)]
pub struct UnitDemand {
    /// The least and the greatest day of return.
    pub min_return: Option<i32>,
    pub max_return: Option<i32>,
    /// The last day on which the unit's last flight may depart.
    pub by: Option<i32>,
    /// The kinds that the unit may be: one way 1, round trip 2, open jaw 4, circle 8, added.
    pub kinds: u8,
    /// What all fares of the unit share: 0 nothing, 1 the carrier, 2 the carrier and the rule.
    pub partner: u8,
}

impl UnitDemand {
    /// What the rule of a fare asks of a unit whose first flight departs on this local day, which
    /// lies from 0 to 100,000. A day of return is asked where category 6 or 7 is there at all.
    pub fn of(rule: &Rule, first_day: i32) -> UnitDemand
        requires low { pos 0 ≤ℤ first_day }
        requires high { first_day ≤ℤ pos 100000 }
        ensures demand { result ≡ demand_of rule.now first_day }
        ensures in_range { first_day ≤ℤ pos 99000 → StaysInRange rule.now → DemandInRange result }
    {
        UnitDemand {
            min_return: least_return(rule.cat6, first_day),
            max_return: greatest_return(rule.cat7, first_day),
            by: last_departure(&rule.cat14),
            kinds: kinds_of(&rule.cat10),
            partner: partner_of(&rule.cat10),
        }
    }

    /// The demand that a unit meets exactly where it meets both.
    pub fn meet(&self, other: &UnitDemand) -> UnitDemand
        ensures demand { result ≡ met self.now other.now }
        ensures both { MeetsBoth result self.now other.now }
        ensures in_range { DemandInRange self.now → DemandInRange other.now → DemandInRange result }
    {
        UnitDemand {
            min_return: later(self.min_return, other.min_return),
            max_return: earlier(self.max_return, other.max_return),
            by: earlier(self.by, other.by),
            kinds: self.kinds & other.kinds,
            partner: self.partner.max(other.partner),
        }
    }

    /// Whether the unit may be of this kind.
    pub fn kind_ok(&self, kind: UnitKind) -> bool
        ensures { result ≡ has_kind self.now.kinds kind }
    {
        self.kinds & kind_number(kind) != 0
    }

    /// Whether the first flight of the unit's last component may depart on this local day.
    pub fn return_ok(&self, day: i32) -> bool
        ensures { IsTrue result ↔ MayReturn self.now day }
    {
        self.min_return.is_none_or(|least| least <= day)
            && self.max_return.is_none_or(|greatest| day <= greatest)
    }

    /// Whether the unit's last flight may depart on this local day.
    pub fn by_ok(&self, day: i32) -> bool
        ensures { IsTrue result ↔ AtMost self.now.by day }
    {
        self.by.is_none_or(|by| day <= by)
    }
}

// The least day of return by category 6: after so many days, and no sooner than the first Sunday
// after the first day where a Sunday has to lie before the return.
fn least_return(stay: Option<MinStay>, first_day: i32) -> Option<i32>
    requires low { pos 0 ≤ℤ first_day }
    requires high { first_day ≤ℤ pos 100000 }
    ensures { result ≡ least_stay stay first_day }
{
    let stay = stay?;
    let earliest = first_day + i32::from(stay.days);
    Some(if stay.sunday {
        earliest.max(first_sunday_after(first_day))
    } else {
        earliest
    })
}

// The greatest day of return by category 7.
fn greatest_return(stay: Option<u16>, first_day: i32) -> Option<i32>
    requires low { pos 0 ≤ℤ first_day }
    requires high { first_day ≤ℤ pos 100000 }
    ensures { result ≡ greatest_stay stay first_day }
{
    Some(first_day + i32::from(stay?))
}

// The last day of departure by category 14.
fn last_departure(travel: &Option<TravelRule>) -> Option<i32>
    ensures { result ≡ by_day travel.now }
{
    travel.as_ref()?.by
}

// The number of what category 10 asks of partners.
fn partner_of(rule: &Option<CombineRule>) -> u8
    ensures { result ≡ Demands.partner_of rule.now }
{
    match rule {
        None => 0,
        Some(combine) => match combine.partners {
            Partners::Any => 0,
            Partners::SameCarrier => 1,
            Partners::SameRule => 2,
        },
    }
}

// The later of two days, or the one that is there.
fn later(day: Option<i32>, other: Option<i32>) -> Option<i32>
    ensures { result ≡ later_of day other }
{
    match (day, other) {
        (Some(day), Some(other)) => Some(day.max(other)),
        _ => day.or(other),
    }
}

// The earlier of two days, or the one that is there.
fn earlier(day: Option<i32>, other: Option<i32>) -> Option<i32>
    ensures { result ≡ earlier_of day other }
{
    match (day, other) {
        (Some(day), Some(other)) => Some(day.min(other)),
        _ => day.or(other),
    }
}
