//! The dated flights of rows, one row after another.
ghost use Rattle.std.specs.HashSet.{contains};
ghost use Rattle.std.specs.Prelude.{◌≡◌, ◌⊎◌, false, ◌≤ℤ◌, ◌<ℤ◌, ◌+ℤ◌, ◌^◌, ◌≤◌, length, pos, IfOk, OnOk, IfErr, ◌++◌, ◌∷◌, []};
ghost use Rattle.std.specs.Bool.{MatchBool, OnTrue};
ghost use Rattle.schedule_book.specs.declared.dated.DatedNumber.{DatedNumber as Dated};
ghost use Rattle.schedule_book.specs.Expansions.{AddsRow, AllDiffer, Expands, HasNone, HasShared, IsAmong, RepeatsOne, Seen, SeenAt, StillSeen, name_in, name_of, number_of};
ghost use Rattle.schedule_book.specs.Faults.{RowCause, RowsRight};

use crate::SchedFault;
use crate::dated::{DatedNumber, FlightName};
use crate::places::Places;
use crate::row_days::{flight_on, name_of, names, number_of};
use crate::row_faults::own_fault;
use fare_law::{Flight, FlightRow, MOST_DATED_FLIGHTS};
use std::alloc::Global;
use std::collections::HashSet;

/// Adds the flights that a row stands for to those so far. Only where another row has the row's name may one of them
/// be there already.
fn add_row(
    flights: &mut Vec<Flight>,
    seen: &mut HashSet<DatedNumber>,
    shared: &HashSet<FlightName>,
    row: &FlightRow,
) -> Result<(), SchedFault>
    requires first { row.now.first ≤ℤ row.now.last }
    requires last { row.now.last ≤ℤ (row.now.first +ℤ pos 365) }
    requires seen { Seen ⟦<DatedNumber as PartialEq>⟧.eq ⟦<FlightName as PartialEq>⟧.eq shared.now flights.old.items seen.old }
    requires apart { contains ⟦<FlightName as PartialEq>⟧.eq shared.now (name_of row.now) ≡ false → HasNone (name_of row.now) flights.old.items }
    ensures added { OnOk result (AddsRow row.now flights.old.items flights.new.items) }
    ensures seen { OnOk result (Seen ⟦<DatedNumber as PartialEq>⟧.eq ⟦<FlightName as PartialEq>⟧.eq shared.now flights.new.items seen.new) }
    ensures fault { IfErr result (λ e. (e ≡ SchedFault.Mem) ⊎ ((e ≡ SchedFault.Twice row.now.line) × RepeatsOne row.now flights.old.items)) }
{
    if shared.contains(&name_of(row)) {
        add_unseen(flights, seen, row)
    } else {
        add_apart(flights, row)
    }
}

/// The same where the flights so far may have one of the row.
fn add_unseen(
    flights: &mut Vec<Flight>,
    seen: &mut HashSet<DatedNumber>,
    row: &FlightRow,
) -> Result<(), SchedFault>
    requires first { row.now.first ≤ℤ row.now.last }
    requires last { row.now.last ≤ℤ (row.now.first +ℤ pos 365) }
    requires differ { AllDiffer ⟦<DatedNumber as PartialEq>⟧.eq flights.old.items }
    requires seen { (q : Dated) → name_in q ≡ name_of row.now → SeenAt ⟦<DatedNumber as PartialEq>⟧.eq flights.old.items seen.old q }
    ensures added { OnOk result (AddsRow row.now flights.old.items flights.new.items) }
    ensures differ { OnOk result (AllDiffer ⟦<DatedNumber as PartialEq>⟧.eq flights.new.items) }
    ensures seen { OnOk result (StillSeen ⟦<DatedNumber as PartialEq>⟧.eq flights.old.items seen.old flights.new.items seen.new) }
    ensures fault { IfErr result (λ e. (e ≡ SchedFault.Mem) ⊎ ((e ≡ SchedFault.Twice row.now.line) × RepeatsOne row.now flights.old.items)) }
{
    for offset in 0..day_count(row) {
        let day = day_after(row.first, offset);
        if names(row, day) {
            let flight = flight_on(row, day);
            if !add_flight(flights, seen, flight)? {
                return Err(SchedFault::Twice { line: row.line });
            }
        }
    }
    Ok(())
}

/// The same where none of the flights so far has the row's name.
fn add_apart(flights: &mut Vec<Flight>, row: &FlightRow) -> Result<(), SchedFault>
    requires first { row.now.first ≤ℤ row.now.last }
    requires last { row.now.last ≤ℤ (row.now.first +ℤ pos 365) }
    requires differ { AllDiffer ⟦<DatedNumber as PartialEq>⟧.eq flights.old.items }
    requires apart { HasNone (name_of row.now) flights.old.items }
    ensures added { OnOk result (AddsRow row.now flights.old.items flights.new.items) }
    ensures differ { OnOk result (AllDiffer ⟦<DatedNumber as PartialEq>⟧.eq flights.new.items) }
    ensures fault { IfErr result (λ e. e ≡ SchedFault.Mem) }
{
    for offset in 0..day_count(row) {
        let day = day_after(row.first, offset);
        if names(row, day) {
            let flight = flight_on(row, day);
            flights.push(flight)?;
        }
    }
    Ok(())
}

/// Adds a flight where no flight has its carrier, number, origin and day.
fn add_flight(
    flights: &mut Vec<Flight>,
    seen: &mut HashSet<DatedNumber>,
    flight: Flight,
) -> Result<bool, SchedFault>
    requires differ { AllDiffer ⟦<DatedNumber as PartialEq>⟧.eq flights.old.items }
    requires seen { SeenAt ⟦<DatedNumber as PartialEq>⟧.eq flights.old.items seen.old (number_of flight) }
    ensures added { IfOk result (λ added. MatchBool added (flights.new.items ≡ flights.old.items ++ flight ∷ []) (IsAmong flight flights.old.items)) }
    ensures differ { IfOk result (λ added. OnTrue added (AllDiffer ⟦<DatedNumber as PartialEq>⟧.eq flights.new.items)) }
    ensures seen { IfOk result (λ added. OnTrue added (StillSeen ⟦<DatedNumber as PartialEq>⟧.eq flights.old.items seen.old flights.new.items seen.new)) }
    ensures fault { IfErr result (λ e. e ≡ SchedFault.Mem) }
{
    let added = seen.insert(number_of(&flight))?;
    if added {
        flights.push(flight)?;
    }
    Ok(added)
}

/// The names that more than one of these rows has.
fn shared_names(alloc: Global, rows: &[FlightRow]) -> Result<HashSet<FlightName>, SchedFault>
    ensures shared { IfOk result (HasShared ⟦<FlightName as PartialEq>⟧.eq rows.now) }
    ensures fault { IfErr result (λ e. e ≡ SchedFault.Mem) }
{
    let mut names = HashSet::with_capacity(alloc, rows.len())?;
    let mut shared = HashSet::new(alloc);
    for row in rows {
        let name = name_of(row);
        if !names.insert(name)? {
            shared.insert(name)?;
        }
    }
    Ok(shared)
}

/// How many days the period of a row has.
fn day_count(row: &FlightRow) -> u16
    requires first { row.now.first ≤ℤ row.now.last }
    requires last { row.now.last ≤ℤ (row.now.first +ℤ pos 365) }
    ensures count { (row.now.first +ℤ pos result) ≡ (row.now.last +ℤ pos 1) }
    ensures within { (row.now.first +ℤ pos result) ≤ℤ pos (2 ^ 31) }
{
    (i64::from(row.last) - i64::from(row.first) + 1) as u16
}

/// The day some days after a day.
fn day_after(first: i32, offset: u16) -> i32
    requires { (first +ℤ pos offset) <ℤ pos (2 ^ 31) }
    ensures { result ≡ (first +ℤ pos offset) }
{
    first + i32::from(offset)
}

/// The dated flights of rows, in the order of the rows.
pub fn expand(alloc: Global, rows: &[FlightRow], places: &Places) -> Result<Vec<Flight>, SchedFault>
    ensures expansion { IfOk result (λ v. Expands ⟦<DatedNumber as PartialEq>⟧.eq rows.now v.items) }
    ensures few { IfOk result (λ v. length v.items ≤ MOST_DATED_FLIGHTS) }
    ensures right { OnOk result (RowsRight places.now rows.now) }
    ensures fault { IfErr result (RowCause places.now rows.now) }
{
    let room = likely_count(rows);
    let mut flights = Vec::with_capacity(alloc, room)?;
    let shared = shared_names(alloc, rows)?;
    let mut seen = HashSet::new(alloc);
    for row in rows {
        if let Some(fault) = own_fault(row, places) {
            return Err(fault);
        }
        if let Err(fault) = add_row(&mut flights, &mut seen, &shared, row) {
            return Err(fault);
        }
        if flights.len() > MOST_DATED_FLIGHTS {
            return Err(SchedFault::TooMany { line: row.line });
        }
    }
    Ok(flights)
}

/// No fewer than the dated flights of rows without a fault, and few more, so that nothing is moved as they are added.
fn likely_count(rows: &[FlightRow]) -> usize {
    let mut count = 0usize;
    for row in rows {
        let weeks = row.last.abs_diff(row.first) as usize / 7 + 1;
        count = count
            .saturating_add(weeks * row.days.count_ones() as usize)
            .min(MOST_DATED_FLIGHTS);
    }
    count
}
