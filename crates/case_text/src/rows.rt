//! The rows of the tables of places, flights and seats.
ghost use Rattle.std.specs.Prelude.{◌≡◌, ◌<◌, ◌≤◌, ℕ, List, length, Ok, OnOk, IfOk, IfErr};
ghost use Rattle.csv.specs.Records.{fields_of};
ghost use Rattle.fare_law.specs.Limits.{IsFlightRow, IsPlaceRow, IsSeatRow};
ghost use Rattle.case_text.specs.Rows as Rows;
ghost use Rattle.case_text.specs.Gives.{Gives, Refuses};
ghost use Rattle.case_text.specs.Lines.{shown};
ghost use Rattle.case_text.specs.Readers.{HasFields};

use crate::fields::{is_plain, line_fields};
use crate::marks::{shift_of, weekdays_of};
use crate::numbers::number_within;
use crate::{Line, RowFault};
use csv::ByteRecord;
use fare_law::{FlightRow, PlaceRow, SeatRow};
use market_time::{day_of, minute_of, offset_of};
use name_text::{carrier_of, place_of, seat_day_of, seats_of};
use std::alloc::Global;

/// The row of a place: its code and its least connect time in minutes, 0 to 1440.
pub fn place_row(alloc: Global, line: &Line<'_>) -> Result<PlaceRow, RowFault>
    ensures row { Gives result (Rows.place_row (shown line.now)) }
    ensures limits { IfOk result IsPlaceRow }
{
    let row = own_fields(alloc, line.bytes)?;
    place_fields(&row, line)
}

/// The same of a line whose fields are these.
pub(crate) fn place_fields(row: &ByteRecord, line: &Line<'_>) -> Result<PlaceRow, RowFault>
    requires { HasFields (fields_of row.now) line.now.bytes.now }
    ensures row { Gives result (Rows.place_row (shown line.now)) }
    ensures limits { IfOk result IsPlaceRow }
{
    columns(row, 2)?;
    let place = in_column(1, place_of(field(row, 1)))?;
    let connect = in_column(2, number_within(field(row, 2), 0, 1440))?;
    Ok(PlaceRow {
        line: line.line,
        place,
        connect,
    })
}

/// The row of a flight, in twelve columns, each within its limits.
pub fn flight_row(alloc: Global, line: &Line<'_>) -> Result<FlightRow, RowFault>
    ensures row { Gives result (Rows.flight_row (shown line.now)) }
    ensures limits { IfOk result IsFlightRow }
{
    let row = own_fields(alloc, line.bytes)?;
    flight_fields(&row, line)
}

/// The same of a line whose fields are these.
pub(crate) fn flight_fields(row: &ByteRecord, line: &Line<'_>) -> Result<FlightRow, RowFault>
    requires { HasFields (fields_of row.now) line.now.bytes.now }
    ensures row { Gives result (Rows.flight_row (shown line.now)) }
    ensures limits { IfOk result IsFlightRow }
{
    columns(row, 12)?;
    let carrier = in_column(1, carrier_of(field(row, 1)))?;
    let number = in_column(2, number_within(field(row, 2), 1, 9999))?;
    let from = in_column(3, place_of(field(row, 3)))?;
    let to = in_column(4, place_of(field(row, 4)))?;
    let dep = in_column(5, minute_of(field(row, 5)).ok())?;
    let dep_offset = in_column(6, offset_of(field(row, 6)).ok())?;
    let arr = in_column(7, minute_of(field(row, 7)).ok())?;
    let arr_offset = in_column(8, offset_of(field(row, 8)).ok())?;
    let shift = in_column(9, shift_of(field(row, 9)))?;
    let first = in_column(10, day_of(field(row, 10)).ok())?;
    let last = in_column(11, day_of(field(row, 11)).ok())?;
    let days = in_column(12, weekdays_of(field(row, 12)))?;
    Ok(FlightRow {
        line: line.line,
        carrier,
        number,
        from,
        to,
        dep,
        dep_offset,
        arr,
        arr_offset,
        shift,
        first,
        last,
        days,
    })
}

/// The row of a flight's seats, on one day or on all days.
pub fn seat_row(alloc: Global, line: &Line<'_>) -> Result<SeatRow, RowFault>
    ensures row { Gives result (Rows.seat_row (shown line.now)) }
    ensures limits { IfOk result IsSeatRow }
{
    let row = own_fields(alloc, line.bytes)?;
    seat_fields(&row, line)
}

/// The same of a line whose fields are these.
pub(crate) fn seat_fields(row: &ByteRecord, line: &Line<'_>) -> Result<SeatRow, RowFault>
    requires { HasFields (fields_of row.now) line.now.bytes.now }
    ensures row { Gives result (Rows.seat_row (shown line.now)) }
    ensures limits { IfOk result IsSeatRow }
{
    columns(row, 5)?;
    let carrier = in_column(1, carrier_of(field(row, 1)))?;
    let number = in_column(2, number_within(field(row, 2), 1, 9999))?;
    let from = in_column(3, place_of(field(row, 3)))?;
    let day = in_column(4, seat_day_of(field(row, 4)))?;
    let seats = in_column(5, seats_of(field(row, 5)))?;
    Ok(SeatRow {
        line: line.line,
        carrier,
        number,
        from,
        day,
        seats,
    })
}

/// The fields of a line by itself, where it is plain.
fn own_fields(alloc: Global, line: &[u8]) -> Result<ByteRecord, RowFault>
    ensures fields { IfOk result (λ row. HasFields (fields_of row) line.now) }
    ensures fault { IfErr result (λ fault. (count : ℕ) → 2 ≤ count → Refuses fault (Rows.columns count line.now)) }
{
    if line.is_empty() || !is_plain(line) {
        return Err(RowFault::BadColumn(0));
    }
    // A reader over a slice fails for want of memory alone.
    match line_fields(alloc, line) {
        Ok(row) => Ok(row),
        Err(_) => Err(RowFault::Mem),
    }
}

/// That the row has so many fields.
fn columns(row: &ByteRecord, count: usize) -> Result<(), RowFault>
    ensures fields { OnOk result ((line : List ℕ) → HasFields (fields_of row.now) line → Rows.columns count line ≡ Ok (fields_of row.now)) }
    ensures fault { IfErr result (λ fault. (line : List ℕ) → HasFields (fields_of row.now) line → Refuses fault (Rows.columns count line)) }
{
    if row.len() == count {
        Ok(())
    } else {
        Err(RowFault::BadColumn(0))
    }
}

/// The field of a column, counted from 1.
fn field(row: &ByteRecord, column: usize) -> &[u8]
    requires { 1 ≤ column }
    ensures { result.now ≡ Rows.field (fields_of row.now) column }
{
    match row.get(column - 1) {
        Some(field) => field,
        None => &[],
    }
}

/// What the column spells, or that it is bad.
fn in_column<T>(column: u32, value: Option<T>) -> Result<T, RowFault>
    ensures { Gives result (Rows.in_column column value) }
{
    match value {
        Some(value) => Ok(value),
        None => Err(RowFault::BadColumn(column)),
    }
}
