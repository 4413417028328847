//! The requests of columns and of cells.
ghost use Rattle.std.specs.Prelude.{◌≡◌, ◌≤ℤ◌, length, pos};
ghost use Rattle.fare_calendar.specs.Cells.{cell, in_days};
ghost use Rattle.fare_calendar.specs.Calendars.{span_fits, spans_fit};
ghost use Rattle.fare_calendar.specs.Columns.{column};
ghost use Rattle.fare_law.specs.Limits.{IsRequest, IsSlice};
ghost use Rattle.fare_law.specs.Lists.{Each};

use crate::Spans;
use crate::columns::OutDays;
use fare_law::{ArrayVec, Request, Slice};

/// The last day of the calendar, 2099-12-31, and one day more.
const PAST_THE_LAST: i32 = 47_482;

/// The request of the days that lie so many days after the first ones: for one ticket, with windows of one day.
pub(crate) fn cell_request(request: &Request, out: u8, back: u8) -> Request
    requires right { IsRequest request.now }
    requires two { length request.now.slices ≡ 2 }
    ensures { result ≡ cell request.now out back }
{
    let outs = OutDays {
        first: out,
        count: 1,
    };
    column_request(request, outs, back)
}

/// The request of a column: the same, with a window of all its days out.
pub(crate) fn column_request(request: &Request, outs: OutDays, back: u8) -> Request
    requires right { IsRequest request.now }
    requires two { length request.now.slices ≡ 2 }
    ensures { result ≡ column request.now outs back }
{
    let [going, coming] = request.slices.as_slice() else {
        unreachable!()
    };
    let mut slices = ArrayVec::new();
    slices.push(on_days(going, outs.first, outs.count));
    slices.push(on_days(coming, back, 1));
    Request {
        sale: request.sale,
        party: request.party,
        best: 1,
        slices,
    }
}

// The slice on so many days, which begin so many days after its first one.
fn on_days(slice: &Slice, later: u8, days: u8) -> Slice
    requires { slice.now.first ≤ℤ pos 47481 }
    ensures { result ≡ in_days slice.now later days }
{
    Slice {
        first: slice.first + i32::from(later),
        days,
        ..*slice
    }
}

/// Whether there are two slices, each with as many days from its first one on as the spans say: 1 to 31, and up to
/// 2099-12-31.
pub(crate) fn spans_fit(slices: &[Slice], spans: Spans) -> bool
    requires { Each IsSlice slices.now }
    ensures { result ≡ spans_fit spans slices.now }
{
    match slices {
        [out, back] => span_fits(out, spans.outs) && span_fits(back, spans.backs),
        _ => false,
    }
}

// Whether a slice has so many days from its first one on.
fn span_fits(slice: &Slice, days: u8) -> bool
    requires { IsSlice slice.now }
    ensures { result ≡ span_fits days slice.now }
{
    1 <= days && days <= 31 && slice.first + i32::from(days) <= PAST_THE_LAST
}
