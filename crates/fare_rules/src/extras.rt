//! What a component costs beside its fare: a charge for each stopover, and surcharges.
ghost use Rattle.std.specs.Prelude.{◌≡◌, ◌≤◌, length, cond, sum_by, All};
ghost use Rattle.fare_law.specs.Parts.{fits, stopover_charge, surcharges};
ghost use Rattle.fare_rules.specs.Limits.{IsTimed, HasLowCharge, HasLowSurcharges, IsLow};

use crate::stopovers;
use fare_law::{Flight, MOST_FLIGHTS_OF_A_COMPONENT, Rule, Surcharge};

/// The charge of category 8 for each stopover of at most four flights; 0 where it is absent.
/// The charge for one is at most 1,000,000.
pub fn charge(rule: &Rule, flights: &[Flight]) -> u64
    requires few { length flights.now ≤ MOST_FLIGHTS_OF_A_COMPONENT }
    requires timed { All IsTimed flights.now }
    requires low { HasLowCharge rule.now }
    ensures sum { result ≡ stopover_charge rule.now flights.now }
    ensures low { result ≤ 3000000 }
{
    rule.cat8
        .as_ref()
        .map_or(0, |stops| stops.charge * u64::from(stopovers(flights)))
}

/// The amounts of category 12, for each of at most four flights those of the entries that fit it;
/// 0 where it is absent. An amount is at most 1,000,000.
pub fn surcharge(rule: &Rule, flights: &[Flight]) -> u64
    requires few { length flights.now ≤ MOST_FLIGHTS_OF_A_COMPONENT }
    requires low { HasLowSurcharges rule.now }
    ensures sum { result ≡ surcharges rule.now.cat12 flights.now }
    ensures low { result ≤ 32000000 }
{
    rule.cat12.as_ref().map_or(0, |entries| flights_surcharge(entries.as_slice(), flights))
}

/// The amounts of the entries that fit, summed over the flights.
fn flights_surcharge(entries: &[Surcharge], flights: &[Flight]) -> u64
    requires few { length flights.now ≤ MOST_FLIGHTS_OF_A_COMPONENT }
    requires few_entries { length entries.now ≤ 8 }
    requires low { All IsLow entries.now }
    ensures sum { result ≡ sum_by (λ f. sum_by (λ s. cond (fits s f) s.amount 0) entries.now) flights.now }
    ensures low { result ≤ 32000000 }
{
    flights
        .iter()
        .map(|flight| flight_surcharge(entries, flight))
        .sum()
}

/// The amounts of the entries that fit the flight.
fn flight_surcharge(entries: &[Surcharge], flight: &Flight) -> u64
    requires few { length entries.now ≤ 8 }
    requires low { All IsLow entries.now }
    ensures sum { result ≡ sum_by (λ s. cond (fits s flight.now) s.amount 0) entries.now }
    ensures low { result ≤ 8000000 }
{
    entries.iter().map(|entry| amount_for(entry, flight)).sum()
}

/// The entry's amount if it fits the flight.
fn amount_for(entry: &Surcharge, flight: &Flight) -> u64
    requires { IsLow entry.now }
    ensures value { result ≡ cond (fits entry.now flight.now) entry.now.amount 0 }
    ensures low { result ≤ 1000000 }
{
    if fits(entry, flight) { entry.amount } else { 0 }
}

/// Whether the flight is of the entry's carrier, with a number and a day in its ranges.
fn fits(entry: &Surcharge, flight: &Flight) -> bool
    ensures { result ≡ fits entry.now flight.now }
{
    entry.carrier == flight.carrier
        && (entry.low..=entry.high).contains(&flight.number)
        && (entry.first..=entry.last).contains(&flight.day)
}
