//! What a component meets by itself.
ghost use Rattle.std.specs.Prelude.{◌≡◌, ◌↔◌, ◌≤◌, ◌⊎◌, length, drop, true, All, IsTrue, IfSome, MatchOption, None, Some};
ghost use Rattle.std.specs.List.{list_all, zip};
ghost use Rattle.fare_law.specs.Book.{seats, same_place};
ghost use Rattle.fare_law.specs.Journey.{Joins, calls};
ghost use Rattle.fare_law.specs.Limits.{IsFlight};
ghost use Rattle.fare_law.specs.Lists.{AllDifferent, Each, EachPair};
ghost use Rattle.fare_law.specs.Parts.{DayTimeHolds, FlightsHold, Seated, StopoversHold, TransfersHold};
ghost use Rattle.fare_law.specs.RuleLimits.{IsRule};
ghost use Rattle.fare_law.specs.Offers.{FiledBetween};
ghost use Rattle.ticket_whole.specs.Breaches.{ComponentMeets, OnRow};
ghost use Rattle.ticket_whole.specs.Known.{ends_of, known_flights, live_row};

use crate::ComponentDemand;
use crate::component_flights::{ends_of, flights_of, has_unknown_flight, row_of};
use crate::routes::{joined, places_once};
use fare_book::Book;
use fare_law::{Class, Component, FareKey, Flight, Place};
use fare_rules::{day_time_ok, flights_ok, limits_are_met, stopovers_ok, transfers_ok};

/// Whether a component meets a demand.
pub fn component_meets(
    demand: ComponentDemand,
    component: &Component,
    book: &Book,
    party: u8,
) -> bool
    ensures { IsTrue result ↔ ComponentMeets book.now party demand component.now }
{
    match demand {
        ComponentDemand::KnownFlights => !has_unknown_flight(component, book),
        ComponentDemand::FlightCount => component.flights.len() > 0,
        ComponentDemand::NoGap => has_no_gap(component, book),
        ComponentDemand::PlacesOnce => calls_once(component, book),
        ComponentDemand::LiveFare => row_of(component, book).is_some(),
        ComponentDemand::FareEnds => fare_fits(component, book),
        ComponentDemand::Seats => has_seats(component, book, party),
        ComponentDemand::DayTime => day_time_meets(component, book),
        ComponentDemand::Flights => flights_meet(component, book),
        ComponentDemand::Stopovers => stopovers_meet(component, book),
        ComponentDemand::Transfers => transfers_meet(component, book),
    }
}

fn has_no_gap(component: &Component, book: &Book) -> bool
    ensures { IsTrue result ↔ EachPair Joins (known_flights book.now component.now.flights) }
{
    joined(flights_of(component, book).as_slice())
}

fn calls_once(component: &Component, book: &Book) -> bool
    ensures { IsTrue result ↔ IfSome (ends_of (known_flights book.now component.now.flights)) (λ e. AllDifferent (calls e.0.from (known_flights book.now component.now.flights))) }
{
    let flights = flights_of(component, book);
    match ends_of(flights.as_slice()) {
        None => true,
        Some((first, _)) => places_once(first.from, flights.as_slice()),
    }
}

fn fare_fits(component: &Component, book: &Book) -> bool
    ensures { IsTrue result ↔ OnRow book.now component.now (λ row fs. IfSome (ends_of fs) (λ e. FiledBetween row.fare.key e.0.from e.1.to)) }
{
    let Some(row) = row_of(component, book) else {
        return true;
    };
    match ends_of(flights_of(component, book).as_slice()) {
        None => true,
        Some((first, last)) => ends_fit(&row.fare.key, first.from, last.to),
    }
}

/// Whether a fare is filed between two places, in one direction.
fn ends_fit(key: &FareKey, begin: Place, end: Place) -> bool
    ensures { IsTrue result ↔ FiledBetween key.now begin end }
{
    (key.from.is(begin) && key.to.is(end)) || (key.from.is(end) && key.to.is(begin))
}

fn has_seats(component: &Component, book: &Book, party: u8) -> bool
    ensures { IsTrue result ↔ OnRow book.now component.now (λ row fs. Seated book.now party row.fare.class fs) }
{
    let Some(row) = row_of(component, book) else {
        return true;
    };
    seats_for(
        book,
        flights_of(component, book).as_slice(),
        row.fare.class,
        party,
    )
}

/// Whether each flight has seats for a party.
fn seats_for(book: &Book, flights: &[Flight], class: Class, party: u8) -> bool
    requires { class ≤ 25 }
    ensures { IsTrue result ↔ All (λ f. party ≤ seats book.now f class) flights.now }
{
    flights
        .iter()
        .all(|flight| seat_for(book, flight, class, party))
}

/// Whether a flight has seats for a party.
fn seat_for(book: &Book, flight: &Flight, class: Class, party: u8) -> bool
    requires { class ≤ 25 }
    ensures { IsTrue result ↔ (party ≤ seats book.now flight.now class) }
{
    book.seats().seated(flight, class, party)
}

fn day_time_meets(component: &Component, book: &Book) -> bool
    ensures { IsTrue result ↔ OnRow book.now component.now (λ row fs. IfSome (ends_of fs) (λ e. DayTimeHolds row.rule e.0)) }
{
    let Some(row) = row_of(component, book) else {
        return true;
    };
    match ends_of(flights_of(component, book).as_slice()) {
        None => true,
        Some((first, _)) => day_time_ok(&row.rule, &first),
    }
}

fn flights_meet(component: &Component, book: &Book) -> bool
    ensures { IsTrue result ↔ OnRow book.now component.now (λ row fs. FlightsHold row.rule fs) }
{
    let Some(row) = row_of(component, book) else {
        return true;
    };
    flights_ok(&row.rule, flights_of(component, book).as_slice())
}

fn stopovers_meet(component: &Component, book: &Book) -> bool
    ensures { IsTrue result ↔ OnRow book.now component.now (λ row fs. StopoversHold row.rule fs) }
{
    let Some(row) = row_of(component, book) else {
        return true;
    };
    limits_are_met();
    stopovers_ok(&row.rule, flights_of(component, book).as_slice())
}

fn transfers_meet(component: &Component, book: &Book) -> bool
    ensures { IsTrue result ↔ OnRow book.now component.now (λ row fs. TransfersHold row.rule row.fare.key.carrier fs) }
{
    let Some(row) = row_of(component, book) else {
        return true;
    };
    limits_are_met();
    transfers_ok(
        &row.rule,
        row.fare.key.carrier,
        flights_of(component, book).as_slice(),
    )
}
