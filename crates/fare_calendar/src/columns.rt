//! The columns of a calendar: what the cells of one day back tell, all found in the steps of one request, whose window has
//! their days out.
ghost use Rattle.std.specs.Prelude.{◌≡◌, ◌<◌, IfOk};
ghost use Rattle.fare_calendar.specs.Sharing.{IsLike, SharesMoves};
ghost use Rattle.fare_calendar.specs.Calendars.{HasValue, value_of};
ghost use Rattle.fare_calendar.specs.Cells.{cell};
ghost use Rattle.fare_calendar.specs.Columns.{AreColumns, AreDaysOut, HasCells, IsColumn, column};
ghost use Rattle.fare_law.specs.Limits.{IsRequest};
ghost use Rattle.search_steps.specs.Cases.{IsSameCase};

use crate::asking::{cell_request, column_request};
use crate::pricing::least_price;
use crate::sharing::shares_moves;
use crate::{CellValue, Spans};
use fare_book::Book;
use fare_law::{List, Mem, Request};
use pricing_graph::GraphFault;
use residual_keys::best_runs;
use search_steps::SearchSteps;
use std::alloc::Global;

/// What a calendar is asked of.
#[derive(Clone, Copy)]
pub(crate) struct Asked<'a> {
    pub book: &'a Book,
    pub request: &'a Request,
    pub spans: Spans,
    /// How many residuals the search of a cell may reach.
    pub budget: u32,
}

/// Days out that follow one another: how many days after the first one of the calendar they begin, and how many they are.
#[derive(Clone, Copy)]
pub(crate) struct OutDays {
    pub first: u8,
    pub count: u8,
}

/// What the cells of some days out tell, for each day back.
pub(crate) fn columns_of(
    alloc: Global,
    asked: &Asked,
    outs: OutDays,
) -> Result<List<List<CellValue>>, Mem>
    requires asked { HasCells asked.now.request.now asked.now.spans }
    requires days { AreDaysOut asked.now.spans outs }
    ensures { IfOk result (AreColumns asked.now.book.now asked.now.request.now asked.now.budget outs asked.now.spans.backs) }
{
    let mut columns = List::new(alloc);
    for back in 0..asked.spans.backs {
        let column = column_on(alloc, asked, outs, back)?;
        columns.push(column)?;
    }
    Ok(columns)
}

// What the cells of a day back tell.
fn column_on(alloc: Global, asked: &Asked, outs: OutDays, back: u8) -> Result<List<CellValue>, Mem>
    requires asked { HasCells asked.now.request.now asked.now.spans }
    requires days { AreDaysOut asked.now.spans outs }
    requires back { back < asked.now.spans.backs }
    ensures { IfOk result (IsColumn asked.now.book.now asked.now.request.now asked.now.budget outs back) }
{
    let request = column_request(asked.request, outs, back);
    let mut steps = SearchSteps::new(alloc, asked.book, &request);
    values_on(alloc, asked, &mut steps, outs, back)
}

// The same, in the steps of the column.
fn values_on(
    alloc: Global,
    asked: &Asked,
    steps: &mut SearchSteps,
    outs: OutDays,
    back: u8,
) -> Result<List<CellValue>, Mem>
    requires asked { HasCells asked.now.request.now asked.now.spans }
    requires days { AreDaysOut asked.now.spans outs }
    requires back { back < asked.now.spans.backs }
    requires book { steps.old.case.book.now ≡ asked.now.book.now }
    requires request { steps.old.case.request.now ≡ column asked.now.request.now outs back }
    ensures { IfOk result (IsColumn asked.now.book.now asked.now.request.now asked.now.budget outs back) }
{
    let mut values = List::new(alloc);
    for later in 0..outs.count {
        let out = outs.first + later;
        let value = value_on(alloc, asked, steps, out, back)?;
        values.push(value)?;
    }
    Ok(values)
}

// What the cell of a day out and a day back tells, in the steps of its column, or in its own where the column's window has
// flights of the cell's range that the cell's window has not.
fn value_on(
    alloc: Global,
    asked: &Asked,
    steps: &mut SearchSteps,
    out: u8,
    back: u8,
) -> Result<CellValue, Mem>
    requires asked { HasCells asked.now.request.now asked.now.spans }
    requires book { steps.old.case.book.now ≡ asked.now.book.now }
    requires steps { IsRequest steps.old.case.request.now }
    requires like { IsLike steps.old.case.request.now (cell asked.now.request.now out back) }
    requires cell { IsRequest (cell asked.now.request.now out back) }
    ensures value { IfOk result (HasValue asked.now.book.now (cell asked.now.request.now out back) asked.now.budget) }
    ensures case { IsSameCase steps.old steps.new }
{
    let request = cell_request(asked.request, out, back);
    if shares_moves(steps, &request) {
        return value_in(alloc, asked.budget, steps, &request);
    }
    value_alone(alloc, asked, &request)
}

// What the least price of a request for one ticket tells, in steps of its own.
fn value_alone(alloc: Global, asked: &Asked, request: &Request) -> Result<CellValue, Mem>
    requires request { IsRequest request.now }
    requires one { request.now.best ≡ 1 }
    ensures { IfOk result (HasValue asked.now.book.now request.now asked.now.budget) }
{
    let mut steps = SearchSteps::new(alloc, asked.book, request);
    value_in(alloc, asked.budget, &mut steps, request)
}

// What the least price of a request for one ticket tells, in the steps of a request that shares its moves.
fn value_in(
    alloc: Global,
    budget: u32,
    steps: &mut SearchSteps,
    request: &Request,
) -> Result<CellValue, Mem>
    requires steps { IsRequest steps.old.case.request.now }
    requires request { IsRequest request.now }
    requires one { request.now.best ≡ 1 }
    requires shares { SharesMoves steps.old.case.book.now steps.old.case.request.now request.now }
    ensures value { IfOk result (HasValue steps.old.case.book.now request.now budget) }
    ensures case { IsSameCase steps.old steps.new }
{
    best_runs();
    steps.case().schedule().flights();
    match least_price(alloc, budget, steps, request) {
        Ok(price) => Ok(told(price)),
        Err(GraphFault::TooLarge { .. }) => Ok(CellValue::TooLarge),
        Err(GraphFault::Mem) => Err(Mem),
    }
}

// What the least price tells.
fn told(price: Option<u64>) -> CellValue
    ensures { result ≡ value_of price }
{
    match price {
        None => CellValue::NoTicket,
        Some(price) => CellValue::Price(price),
    }
}
