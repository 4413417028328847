//! Whether a request shares its moves with the request of steps.
ghost use Rattle.std.specs.Prelude.{◌≡◌, ◌↔◌, All, IsTrue, Some, slice_get};
ghost use Rattle.fare_calendar.specs.Sharing.{IsLike, SameWindows, SharesMoves};
ghost use Rattle.fare_calendar.specs.Windows.{IsAlike};
ghost use Rattle.fare_law.specs.Limits.{IsRequest};
ghost use Rattle.flight_paths.specs.Positions.{in_window};

use fare_book::Book;
use fare_law::{Flight, Request, Slice};
use residual_keys::root;
use schedule_book::Schedule;
use search_steps::SearchSteps;

/// Whether a request that is like that of the steps, but for the window of its first slice, has the same moves from its
/// own beginning.
pub fn shares_moves(steps: &SearchSteps, request: &Request) -> bool
    requires steps { IsRequest steps.now.case.request.now }
    requires request { IsRequest request.now }
    requires like { IsLike steps.now.case.request.now request.now }
    ensures { IsTrue result → SharesMoves steps.now.case.book.now steps.now.case.request.now request.now }
{
    let case = steps.case();
    same_windows(case.book, case.request, request)
}

/// Whether the windows of the first slices have the same of the flights that may be first by the second request. Local
/// days of a place need not part its flights, since each row of flights has its own difference from universal time.
fn same_windows(book: &Book, shared: &Request, request: &Request) -> bool
    requires shared { IsRequest shared.now }
    requires request { IsRequest request.now }
    ensures { IsTrue result → SameWindows book.now shared.now request.now }
{
    let at = root(book, request).at;
    let schedule = schedule_of(book);
    let numbers = schedule.from_place(at.place, at.lo, at.hi);
    let (one, other) = (first_slice(shared), first_slice(request));
    are_alike(schedule.flights(), numbers, one, other)
}

fn schedule_of(book: &Book) -> &Schedule
    ensures { result.now.flights ≡ book.now.timetable.flights }
{
    book.timetable().schedule()
}

fn first_slice(request: &Request) -> &Slice
    requires { IsRequest request.now }
    ensures { slice_get request.now.slices 0 ≡ Some result.now }
{
    &request.slices.as_slice()[0]
}

/// Whether each of these flights is in both windows or in neither.
fn are_alike(flights: &[Flight], numbers: &[u32], one: &Slice, other: &Slice) -> bool
    ensures { IsTrue result ↔ All (IsAlike flights.now one.now other.now) numbers.now }
{
    numbers
        .iter()
        .all(|number| is_alike(flights, *number, one, other))
}

/// Whether the flight of a number is in both windows or in neither.
fn is_alike(flights: &[Flight], number: u32, one: &Slice, other: &Slice) -> bool
    ensures { IsTrue result ↔ IsAlike flights.now one.now other.now number }
{
    match flights.get(number as usize) {
        Some(flight) => in_window(one, flight) == in_window(other, flight),
        None => true,
    }
}

/// Whether a flight departs on a local day of the slice's window.
fn in_window(slice: &Slice, flight: &Flight) -> bool
    ensures { result ≡ in_window slice.now flight.now }
{
    let past = i64::from(slice.first) + i64::from(slice.days);
    slice.first <= flight.day && i64::from(flight.day) < past
}
