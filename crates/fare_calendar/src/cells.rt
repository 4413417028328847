//! The cells of a calendar, from its columns.
ghost use Rattle.std.specs.Prelude.{◌≡◌, ◌<◌, ◌+◌, ◌++◌, ℕ, List as Items, [], ◌∷◌, length, map, slice_get, IfOk, OnOk, Some};
ghost use Rattle.fare_calendar.specs.Calendars.{IsCell, day_pairs, with_backs};
ghost use Rattle.fare_calendar.specs.CalendarText.{HasDates};
ghost use Rattle.fare_calendar.specs.Columns.{AreColumns, AreDaysOut, HasCells};
ghost use Rattle.fare_law.specs.Lists.{Each, Matched};

use crate::asking::cell_request;
use crate::columns::{Asked, OutDays, columns_of};
use crate::{Cell, CellValue, Spans};
use fare_law::{List, MOST_WINDOW_DAYS, Mem, Request};
use std::alloc::Global;

/// The cells of a calendar, in order.
pub(crate) fn cells_of(alloc: Global, asked: &Asked) -> Result<List<Cell>, Mem>
    requires { HasCells asked.now.request.now asked.now.spans }
    ensures cells { IfOk result (Matched (IsCell asked.now.book.now asked.now.request.now asked.now.budget) (day_pairs asked.now.spans.outs asked.now.spans.backs)) }
    ensures dates { IfOk result (Each HasDates) }
{
    let mut cells = List::new(alloc);
    let mut first = 0;
    while first < asked.spans.outs {
        let outs = days_from(asked.spans, first);
        push_days(alloc, asked, outs, &mut cells)?;
        first += outs.count;
    }
    Ok(cells)
}

// The days out from one of them on, as many as are left or as a window may have.
fn days_from(spans: Spans, first: u8) -> OutDays
    requires { first < spans.outs }
    ensures days { AreDaysOut spans result }
    ensures first { result.first ≡ first }
{
    let left = spans.outs - first;
    if left <= MOST_WINDOW_DAYS {
        return OutDays { first, count: left };
    }
    OutDays {
        first,
        count: MOST_WINDOW_DAYS,
    }
}

// Adds the cells of some days out to those of the days before them.
fn push_days(alloc: Global, asked: &Asked, outs: OutDays, cells: &mut List<Cell>) -> Result<(), Mem>
    requires asked { HasCells asked.now.request.now asked.now.spans }
    requires days { AreDaysOut asked.now.spans outs }
    requires cells { Matched (IsCell asked.now.book.now asked.now.request.now asked.now.budget) (day_pairs outs.first asked.now.spans.backs) cells.old }
    requires dates { Each HasDates cells.old }
    ensures cells { OnOk result (Matched (IsCell asked.now.book.now asked.now.request.now asked.now.budget) (day_pairs (outs.first + outs.count) asked.now.spans.backs) cells.new) }
    ensures dates { OnOk result (Each HasDates cells.new) }
{
    let columns = columns_of(alloc, asked, outs)?;
    for later in 0..outs.count {
        push_cells(asked, columns.as_slice(), outs, later, cells)?;
    }
    Ok(())
}

// Adds the cells of a day out, one for each day back.
fn push_cells(
    asked: &Asked,
    columns: &[List<CellValue>],
    outs: OutDays,
    later: u8,
    cells: &mut List<Cell>,
) -> Result<(), Mem>
    requires asked { HasCells asked.now.request.now asked.now.spans }
    requires days { AreDaysOut asked.now.spans outs }
    requires columns { AreColumns asked.now.book.now asked.now.request.now asked.now.budget outs asked.now.spans.backs columns.now }
    requires later { later < outs.count }
    ensures cells { OnOk result ((pairs : Items (ℕ × ℕ)) → Matched (IsCell asked.now.book.now asked.now.request.now asked.now.budget) pairs cells.old
        → Matched (IsCell asked.now.book.now asked.now.request.now asked.now.budget) (pairs ++ with_backs asked.now.spans.backs (outs.first + later)) cells.new) }
    ensures dates { OnOk result (Each HasDates cells.old → Each HasDates cells.new) }
{
    for back in 0..asked.spans.backs {
        let cell = cell_on(asked, columns, outs, later, back);
        cells.push(cell)?;
    }
    Ok(())
}

// The cell of a day out and a day back.
fn cell_on(asked: &Asked, columns: &[List<CellValue>], outs: OutDays, later: u8, back: u8) -> Cell
    requires asked { HasCells asked.now.request.now asked.now.spans }
    requires days { AreDaysOut asked.now.spans outs }
    requires columns { AreColumns asked.now.book.now asked.now.request.now asked.now.budget outs asked.now.spans.backs columns.now }
    requires later { later < outs.count }
    requires back { back < asked.now.spans.backs }
    ensures cell { IsCell asked.now.book.now asked.now.request.now asked.now.budget (outs.first + later, back) result }
    ensures dates { HasDates result }
{
    let out = outs.first + later;
    let request = cell_request(asked.request, out, back);
    let column = column_at(columns, back);
    let value = value_at(column, later);
    cell_of(&request, value)
}

// What is told of a day back.
fn column_at(columns: &[List<CellValue>], back: u8) -> &[CellValue]
    requires { back < length columns.now }
    ensures { slice_get columns.now back ≡ Some result.now }
{
    columns[back as usize].as_slice()
}

// What a column tells of one of its days out.
fn value_at(column: &[CellValue], later: u8) -> CellValue
    requires { later < length column.now }
    ensures { slice_get column.now later ≡ Some result }
{
    column[later as usize]
}

// The cell of a request with two windows of one day.
fn cell_of(request: &Request, value: CellValue) -> Cell
    requires { length request.now.slices ≡ 2 }
    ensures days { map (λ s. s.first) request.now.slices ≡ result.out ∷ result.back ∷ [] }
    ensures value { result.value ≡ value }
{
    let [going, coming] = request.slices.as_slice() else {
        unreachable!()
    };
    Cell {
        out: going.first,
        back: coming.first,
        value,
    }
}
