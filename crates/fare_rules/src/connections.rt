//! Categories 8 and 9: where a component's passengers stop over, and where they change planes.
ghost use Rattle.std.specs.Prelude.{◌≡◌, ◌↔◌, ◌≤◌, length, IsTrue, IfSome, All, drop};
ghost use Rattle.std.specs.List.{count_by, list_all, zip};
ghost use Rattle.fare_law.specs.Lists.{OnFirst};
ghost use Rattle.fare_law.specs.Parts.{is_stopover, stopovers, transfers, StopoversHold, TransfersHold};
ghost use Rattle.fare_rules.specs.Limits.{IsTimed};
ghost use Rattle.fare_rules.specs.Permits.{permits_stop, StopsOnlyAt};

use fare_law::{Carrier, Flight, MOST_FLIGHTS_OF_A_COMPONENT, Place, Rule, StopRule};

/// The longest gap of a transfer, in minutes; a longer one is a stopover.
const LONGEST_TRANSFER: i64 = 1440;

/// The connections of at most four flights that are stopovers: those with a gap of over a day.
/// Instants lie from 0 to 100,000,000.
#[tactic(auto, using(crate::proofs::Neighbours::stopovers_paired, crate::proofs::Neighbours::stopovers_few))]
pub fn stopovers(flights: &[Flight]) -> u8
    requires few { length flights.now ≤ MOST_FLIGHTS_OF_A_COMPONENT }
    requires timed { All IsTimed flights.now }
    ensures count { result ≡ stopovers flights.now }
    ensures few { result ≤ 3 }
{
    long_gaps(flights) as u8
}

/// Whether the flights meet category 8: at most `max` stopovers, each at one of `places` where
/// that is given. True where it is absent.
#[tactic(auto, unfolding(crate::specs::Permits::StopsOnlyAt))]
pub fn stopovers_ok(rule: &Rule, flights: &[Flight]) -> bool
    requires few { length flights.now ≤ MOST_FLIGHTS_OF_A_COMPONENT }
    requires timed { All IsTimed flights.now }
    ensures { IsTrue result ↔ StopoversHold rule.now flights.now }
{
    rule.cat8
        .as_ref()
        .is_none_or(|stops| stops_permitted(stops, flights))
}

/// Whether the stopovers are at most as many, and only where the category says.
fn stops_permitted(stops: &StopRule, flights: &[Flight]) -> bool
    requires few { length flights.now ≤ MOST_FLIGHTS_OF_A_COMPONENT }
    requires timed { All IsTimed flights.now }
    ensures { IsTrue result ↔ ((stopovers flights.now ≤ stops.now.max) × IfSome stops.now.places (λ places. StopsOnlyAt places flights.now)) }
{
    stopovers(flights) <= stops.max
        && stops
            .places
            .as_ref()
            .is_none_or(|places| stops_only_at(places.as_slice(), flights))
}

/// Whether the flights meet category 9: at most `max` transfers, and every flight of the fare's
/// carrier where it is `online`. Otherwise, and where it is absent, the first flight is of it.
pub fn transfers_ok(rule: &Rule, carrier: Carrier, flights: &[Flight]) -> bool
    requires few { length flights.now ≤ MOST_FLIGHTS_OF_A_COMPONENT }
    requires timed { All IsTimed flights.now }
    ensures { IsTrue result ↔ TransfersHold rule.now carrier flights.now }
{
    match &rule.cat9 {
        None => begins_on(carrier, flights),
        Some(limit) => {
            transfers(flights) <= limit.max
                && if limit.online {
                    flights.iter().all(|flight| flight.carrier.is(carrier))
                } else {
                    begins_on(carrier, flights)
                }
        }
    }
}

/// Whether the gap between two neighbouring flights is over a day.
fn is_stopover(arriving: &Flight, departing: &Flight) -> bool
    requires { IsTimed arriving.now }
    ensures { result ≡ is_stopover arriving.now departing.now }
{
    departing.dep > arriving.arr + LONGEST_TRANSFER
}

/// How many neighbouring flights are a stopover apart.
fn long_gaps(flights: &[Flight]) -> usize
    requires { All IsTimed flights.now }
    ensures { result ≡ count_by (λ p. is_stopover p.0 p.1) (zip flights.now (drop 1 flights.now)) }
{
    flights
        .iter()
        .zip(flights.iter().skip(1))
        .filter(|(arriving, departing)| is_stopover(arriving, departing))
        .count()
}

/// Whether each stopover is at one of the places.
fn stops_only_at(places: &[Place], flights: &[Flight]) -> bool
    requires { All IsTimed flights.now }
    ensures { IsTrue result ↔ StopsOnlyAt places.now flights.now }
{
    permits_each_stop(places, flights)
}

/// Whether each two neighbouring flights do not stop over, or do so at one of the places.
fn permits_each_stop(places: &[Place], flights: &[Flight]) -> bool
    requires { All IsTimed flights.now }
    ensures { result ≡ list_all (λ p. permits_stop places.now p.0 p.1) (zip flights.now (drop 1 flights.now)) }
{
    flights.iter().zip(flights.iter().skip(1)).all(|(arriving, departing)| permits_stop(
        places, arriving, departing,
    ))
}

/// Whether two neighbouring flights do not stop over, or do so at one of the places.
#[tactic(auto, unfolding(crate::specs::Permits::permits_stop))]
fn permits_stop(places: &[Place], arriving: &Flight, departing: &Flight) -> bool
    requires { IsTimed arriving.now }
    ensures { result ≡ permits_stop places.now arriving.now departing.now }
{
    !is_stopover(arriving, departing) || places.contains(&arriving.to)
}

/// The connections that are no stopovers.
#[tactic(auto, using(crate::proofs::Neighbours::connections_split))]
fn transfers(flights: &[Flight]) -> u8
    requires few { length flights.now ≤ MOST_FLIGHTS_OF_A_COMPONENT }
    requires timed { All IsTimed flights.now }
    ensures { result ≡ transfers flights.now }
{
    (flights.len() as u8).saturating_sub(1) - stopovers(flights)
}

/// Whether there is a first flight, and it is of this carrier.
fn begins_on(carrier: Carrier, flights: &[Flight]) -> bool
    ensures { IsTrue result ↔ OnFirst (λ f. f.carrier ≡ carrier) flights.now }
{
    flights
        .first()
        .is_some_and(|flight| flight.carrier.is(carrier))
}
