//! One component against one row of a sheet: whether the fare is lawful there, and what it costs.
ghost use Rattle.std.specs.Prelude.{◌≡◌, ◌⊎◌, ◌↔◌, ◌≤◌, length, All, IsBitSet, IsTrue};
ghost use Rattle.std.specs.Int.{IsInRange};
ghost use Rattle.fare_law.specs.Limits.{IsFare, IsFlight};
ghost use Rattle.fare_law.specs.Lists.{OnFirst, OnLast};
ghost use Rattle.fare_law.specs.Offers.{HasDirection, IsOffered, flights_of, row_price};
ghost use Rattle.fare_law.specs.Parts.{DayTimeHolds};
ghost use Rattle.fare_law.specs.RuleLimits.{IsRule};

use fare_law::{Class, Flight, Leg, MOST_FLIGHTS_OF_A_COMPONENT, SheetRow};
use fare_rules::{
    charge, day_time_ok, flights_ok, limits_are_met, share, stopovers_ok, surcharge, transfers_ok,
};

/// Whether the fare of a row may be had on the legs, and its rule permits their flights. The fare is
/// filed between the ends of these flights.
pub fn is_offered(row: &SheetRow, legs: &[Leg], flights: &[Flight]) -> bool
    requires count { IsInRange 1 MOST_FLIGHTS_OF_A_COMPONENT (length flights.now) }
    requires flights { All IsFlight flights.now }
    requires same { flights.now ≡ flights_of legs.now }
    requires fare { IsFare row.now.fare }
    requires rule { IsRule row.now.rule }
    requires direction { HasDirection row.now.fare.key flights.now }
    ensures { IsTrue result ↔ IsOffered legs.now row.now }
{
    limits_are_met();
    has_seats(legs, row.fare.class)
        && departs_ok(row, flights)
        && flights_ok(&row.rule, flights)
        && stopovers_ok(&row.rule, flights)
        && transfers_ok(&row.rule, row.fare.key.carrier, flights)
}

/// Whether each leg has seats for the party in the class.
fn has_seats(legs: &[Leg], class: Class) -> bool
    requires { class ≤ 25 }
    ensures { IsTrue result ↔ All (λ leg. IsBitSet leg.classes class) legs.now }
{
    legs.iter().all(|leg| is_open(leg.classes, class))
}

/// Whether the class is among these.
fn is_open(classes: u32, class: Class) -> bool
    requires { class ≤ 25 }
    ensures { IsTrue result ↔ IsBitSet classes class }
{
    classes & (1 << class) != 0
}

/// Whether the first departure meets category 2.
fn departs_ok(row: &SheetRow, flights: &[Flight]) -> bool
    requires { All IsFlight flights.now }
    ensures { IsTrue result ↔ OnFirst (DayTimeHolds row.now.rule) flights.now }
{
    flights
        .first()
        .is_some_and(|first| day_time_ok(&row.rule, first))
}

/// What a component of these flights costs with the row's fare.
pub fn price(row: &SheetRow, flights: &[Flight]) -> u64
    requires few { length flights.now ≤ MOST_FLIGHTS_OF_A_COMPONENT }
    requires flights { All IsFlight flights.now }
    requires fare { IsFare row.now.fare }
    requires rule { IsRule row.now.rule }
    ensures { result ≡ row_price flights.now row.now }
{
    limits_are_met();
    share(&row.fare) + charge(&row.rule, flights) + surcharge(&row.rule, flights)
}
