//! Category 4: the only flights that a fare may be used on, or those that it may not.
ghost use Rattle.std.specs.Prelude.{◌↔◌, IsTrue, All, Any};
ghost use Rattle.fare_law.specs.Parts.{FlightsHold, Lists};
ghost use Rattle.fare_rules.specs.Permits.{PermitsFlight};

use fare_law::{Flight, FlightRange, FlightRule, Rule};

/// Whether the flights meet category 4: each is a listed one, or none is. True where it is absent.
#[tactic(auto, unfolding(crate::specs::Permits::PermitsFlight))]
pub fn flights_ok(rule: &Rule, flights: &[Flight]) -> bool
    ensures { IsTrue result ↔ FlightsHold rule.now flights.now }
{
    rule.cat4
        .as_ref()
        .is_none_or(|named| permits_all(named, flights))
}

/// Whether it permits each of the flights.
fn permits_all(named: &FlightRule, flights: &[Flight]) -> bool
    ensures { IsTrue result ↔ All (PermitsFlight named.now) flights.now }
{
    flights.iter().all(|flight| permits(named, flight))
}

/// Whether the flight is listed, or is not where the list excludes.
#[tactic(auto, unfolding(crate::specs::Permits::PermitsFlight))]
fn permits(named: &FlightRule, flight: &Flight) -> bool
    ensures { IsTrue result ↔ PermitsFlight named.now flight.now }
{
    is_listed(named.flights.as_slice(), flight) == named.allow
}

/// Whether some range has the flight.
fn is_listed(ranges: &[FlightRange], flight: &Flight) -> bool
    ensures { IsTrue result ↔ Any (λ range. Lists range flight.now) ranges.now }
{
    ranges.iter().any(|range| lists(range, flight))
}

/// Whether the flight is of the range's carrier, with a number from `low` to `high`.
fn lists(range: &FlightRange, flight: &Flight) -> bool
    ensures { IsTrue result ↔ Lists range.now flight.now }
{
    flight.carrier.is(range.carrier) && (range.low..=range.high).contains(&flight.number)
}
