//! One component of a search: its flights, its legs, and what units read of a fare over them.
ghost use Rattle.std.specs.Prelude.{◌≡◌, ◌≤◌, All, List, length};
ghost use Rattle.fare_law.specs.Days.{IsCalendarDay};
ghost use Rattle.fare_law.specs.Limits.{IsFlight};
ghost use Rattle.fare_law.specs.RuleLimits.{IsRule};
ghost use Rattle.open_unit.specs.Ranges.{PieceInRanges};
ghost use Rattle.residual_keys.specs.Residuals.{closes};
ghost use Rattle.residual_keys.specs.Steps.{KeyOn};
ghost use Rattle.fare_law.specs.declared.flights.Flight.{Flight as DatedFlight};
ghost use Rattle.fare_law.specs.Lists.{Matched, OnFirst, OnLast};
ghost use Rattle.fare_law.specs.Offers.{flights_of};
ghost use Rattle.fare_law.specs.Parts.{Numbers};
ghost use Rattle.flight_paths.specs.Plans.{HasPlan};
ghost use Rattle.residual_keys.specs.AskedKeys.{IsLeg};
ghost use Rattle.residual_keys.specs.Gathered.{IsReadOver};

use fare_book::Book;
use fare_law::{
    ArrayVec, FareKey, Flight, Leg, MOST_FLIGHTS_OF_A_COMPONENT, Move, Place, Role, SheetRow,
};
use fare_rules::rules_stay_in_range;
use open_unit::Facts;
use schedule_book::Schedule;

/// The places and the flights of a book.
pub fn schedule_of(book: &Book) -> &Schedule
    ensures { HasPlan book.now result.now }
{
    book.timetable().schedule()
}

/// The flights of these numbers, at most four.
pub fn flights_of(book: &Book, numbers: &[u32]) -> ArrayVec<Flight, MOST_FLIGHTS_OF_A_COMPONENT>
    requires few { length numbers.now ≤ MOST_FLIGHTS_OF_A_COMPONENT }
    requires known { (fs : List DatedFlight) × Numbers book.now numbers.now fs }
    ensures flights { (fs : List DatedFlight) → Numbers book.now numbers.now fs → result ≡ fs }
    ensures limits { All IsFlight result }
{
    let all = schedule_of(book).flights();
    let mut flights = ArrayVec::new();
    for number in numbers {
        flights.push(all[*number as usize]);
    }
    flights
}

/// The flights as legs, with the classes that have seats for the party.
pub fn legs_of(
    book: &Book,
    party: u8,
    flights: &[Flight],
) -> ArrayVec<Leg, MOST_FLIGHTS_OF_A_COMPONENT>
    requires { length flights.now ≤ MOST_FLIGHTS_OF_A_COMPONENT }
    ensures legs { Matched (IsLeg book.now party) flights.now result }
    ensures flights { flights_of result ≡ flights.now }
{
    let seats = book.seats();
    let mut legs = ArrayVec::new();
    for flight in flights {
        legs.push(Leg {
            flight: *flight,
            classes: seats.mask(flight, party),
        });
    }
    legs
}

/// What units and tickets read of a fare with its rule over these flights.
pub fn facts_over<'a>(flights: &[Flight], row: &'a SheetRow, reverse: bool, sale: i32) -> Facts<'a>
    requires some { 1 ≤ length flights.now }
    requires flights { All IsFlight flights.now }
    requires rule { IsRule row.now.rule }
    requires sale { IsCalendarDay sale }
    ensures in_ranges { PieceInRanges result }
    ensures over { IsReadOver sale flights.now row.now reverse result }
{
    rules_stay_in_range();
    let first = first_of(flights);
    let last = last_of(flights);
    Facts {
        begin: first.from,
        end: last.to,
        carrier: row.fare.key.carrier,
        number: row.fare.rule,
        kind: row.fare.kind,
        rule: &row.rule,
        reverse,
        first_day: first.day,
        last_day: last.day,
        sale,
    }
}

/// The key of the fare that a move names on its flights.
pub fn key_on(flights: &[Flight], mv: &Move) -> FareKey
    requires { 1 ≤ length flights.now }
    ensures { KeyOn mv.now flights.now result }
{
    let begin = first_of(flights).from;
    let end = last_of(flights).to;
    if closes(mv.role) {
        key_between(mv, end, begin)
    } else {
        key_between(mv, begin, end)
    }
}

/// The key of the fare that a move names, filed from the one place to the other.
fn key_between(mv: &Move, from: Place, to: Place) -> FareKey
    ensures { result ≡ record { carrier = mv.now.carrier; from = from; to = to; basis = mv.now.basis } }
{
    FareKey {
        carrier: mv.carrier,
        from,
        to,
        basis: mv.basis.copied(),
    }
}

/// Whether a component in this role has a fare that is filed from its end to its beginning.
pub fn closes(role: Role) -> bool
    ensures { result ≡ closes role }
{
    matches!(role, Role::Closes)
}

/// The first of some flights.
pub fn first_of(flights: &[Flight]) -> &Flight
    requires { 1 ≤ length flights.now }
    ensures first { OnFirst (λ f. result.now ≡ f) flights.now }
    ensures limits { All IsFlight flights.now → IsFlight result.now }
{
    &flights[0]
}

/// The last of some flights.
pub fn last_of(flights: &[Flight]) -> &Flight
    requires { 1 ≤ length flights.now }
    ensures last { OnLast (λ f. result.now ≡ f) flights.now }
    ensures limits { All IsFlight flights.now → IsFlight result.now }
{
    &flights[flights.len() - 1]
}
