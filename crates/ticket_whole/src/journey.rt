//! The flights of a ticket against the slices of the request.
ghost use Rattle.std.specs.Prelude.{◌≡◌, ◌≢◌, ◌↔◌, ◌≤◌, length, map, option_map, slice_get, take, All, IfSome, IsTrue, MatchOption, None, Some};
ghost use Rattle.fare_law.specs.Days.{IsInstant};
ghost use Rattle.fare_law.specs.Journey.{InWindow, Joins, LateEnough};
ghost use Rattle.fare_law.specs.Limits.{IsFlight, IsSlice};
ghost use Rattle.fare_law.specs.Lists.{Each, EachPair, LastDiffers, OnFirst};
ghost use Rattle.ticket_whole.specs.Cuts.{CutsMeet, SliceMeets};
ghost use Rattle.ticket_whole.specs.Known.{ends_of};

use crate::JourneyDemand;
use crate::component_flights::{connect, ends_of};
use crate::routes::{joined, places_once, short_stops};
use fare_book::Book;
use fare_law::{Flight, Place, Slice};

/// Whether the flights are cut into the slices, and those of each slice meet the demand.
pub fn cuts_meet(demand: JourneyDemand, slices: &[Slice], flights: &[Flight], book: &Book) -> bool
    requires flights { Each IsFlight flights.now }
    requires slices { Each IsSlice slices.now }
    ensures { IsTrue result ↔ CutsMeet book.now demand None slices.now flights.now }
{
    let mut rest = flights;
    let mut arrival = None;
    for slice in slices {
        let Some(count) = count_to(slice.to, rest) else {
            return false;
        };
        let (now, later) = rest.split_at(count);
        if !begins_right(slice, now) {
            return false;
        }
        if !slice_meets(demand, arrival, slice, now, book) {
            return false;
        }
        arrival = last_arrival(now);
        rest = later;
    }
    rest.is_empty()
}

/// How many flights there are up to the first arrival at a place.
fn count_to(place: Place, flights: &[Flight]) -> Option<usize>
    ensures few { IfSome result (λ n. n ≤ length flights.now) }
    ensures cut { MatchOption result (Each (λ f. f.to ≢ place) flights.now) (λ n. LastDiffers (λ f. f.to ≢ place) (λ f. f.to ≡ place) (take n flights.now)) }
{
    for at in 0..flights.len() {
        if flights[at].to.is(place) {
            return Some(at + 1);
        }
    }
    None
}

/// Whether the flights are from the slice's origin, each from where the one before arrived.
fn begins_right(slice: &Slice, flights: &[Flight]) -> bool
    ensures { IsTrue result ↔ (OnFirst (λ f. f.from ≡ slice.now.from) flights.now × EachPair Joins flights.now) }
{
    flights
        .first()
        .is_some_and(|flight| flight.from.is(slice.from))
        && joined(flights)
}

/// The arrival of the last flight.
fn last_arrival(flights: &[Flight]) -> Option<i64>
    ensures { result ≡ option_map (λ e. e.1.arr) (ends_of flights.now) }
{
    let (_, last) = ends_of(flights)?;
    Some(last.arr)
}

/// Whether the flights of one slice, after an arrival if there was one, meet the demand.
fn slice_meets(
    demand: JourneyDemand,
    arrival: Option<i64>,
    slice: &Slice,
    flights: &[Flight],
    book: &Book,
) -> bool
    requires arrival { IfSome arrival IsInstant }
    requires slice { IsSlice slice.now }
    requires flights { All IsFlight flights.now }
    ensures { IsTrue result ↔ SliceMeets book.now demand arrival slice.now flights.now }
{
    match demand {
        JourneyDemand::Slices => true,
        JourneyDemand::Length => flights.len() <= 3,
        JourneyDemand::Places => places_once(slice.from, flights),
        JourneyDemand::Connections => {
            short_stops(flights, book) && begins_late_enough(arrival, flights, book)
        }
        JourneyDemand::Window => begins_in_window(slice, flights),
    }
}

/// Whether there is a first flight, and it departs in the slice's window.
fn begins_in_window(slice: &Slice, flights: &[Flight]) -> bool
    requires { IsSlice slice.now }
    ensures { IsTrue result ↔ OnFirst (InWindow slice.now) flights.now }
{
    flights
        .first()
        .is_some_and(|flight| in_window(slice, flight))
}

fn in_window(slice: &Slice, flight: &Flight) -> bool
    requires { IsSlice slice.now }
    ensures { IsTrue result ↔ InWindow slice.now flight.now }
{
    slice.first <= flight.day && flight.day < slice.first + i32::from(slice.days)
}

/// Whether there is a first flight, and it departs late enough after the arrival.
fn begins_late_enough(arrival: Option<i64>, flights: &[Flight], book: &Book) -> bool
    requires { IfSome arrival IsInstant }
    ensures { IsTrue result ↔ OnFirst (LateEnough book.now arrival) flights.now }
{
    flights
        .first()
        .is_some_and(|flight| late_enough(arrival, flight, book))
}

fn late_enough(arrival: Option<i64>, flight: &Flight, book: &Book) -> bool
    requires { IfSome arrival IsInstant }
    ensures { IsTrue result ↔ LateEnough book.now arrival flight.now }
{
    match arrival {
        None => true,
        Some(arrival) => arrival + i64::from(connect(book, flight.from)) <= flight.dep,
    }
}
