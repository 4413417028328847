//! What one move leaves.
ghost use Rattle.std.specs.Prelude.{All, IfNone, IfSome, List};
ghost use Rattle.fare_law.specs.declared.flights.Flight.{Flight as DatedFlight};
ghost use Rattle.fare_law.specs.Limits.{IsFare, IsFlight, IsRequest};
ghost use Rattle.fare_law.specs.RuleLimits.{IsRule};
ghost use Rattle.flight_paths.specs.Positions.{IsPath};
ghost use Rattle.residual_keys.specs.declared.residual.Next.{Next as After};
ghost use Rattle.residual_keys.specs.ResidualText.{IsWritten};
ghost use Rattle.residual_keys.specs.Steps.{IsLiveOn, StepsTo};
ghost use Rattle.residual_keys.specs.Written.{IsWrittenNext};

use crate::component::{closes, facts_over, flights_of, key_on, legs_of, schedule_of};
use crate::laws::reached_is_written;
use crate::leaving::next_after;
use crate::limits::book_limits;
use crate::{Next, Residual};
use fare_book::Book;
use fare_component::is_offered;
use fare_law::{Flight, Move, Request, SheetRow};
use flight_paths::{Position, path_of};

/// What a move of a residual leaves. None exactly where it is no move of the residual. It has a text
/// where the residual has one.
pub fn step(book: &Book, request: &Request, residual: &Residual, mv: &Move) -> Option<Next>
    requires { IsRequest request.now }
    ensures some { IfSome result (StepsTo book.now request.now residual.now mv.now) }
    ensures none { IfNone result ((next : After) → StepsTo book.now request.now residual.now mv.now next → ⊥) }
    ensures written { IsWritten residual.now → IfSome result IsWrittenNext }
{
    book_limits(book);
    reached_is_written();
    next_by(book, request, residual, mv)
}

/// What a move of a residual leaves. None exactly where it is no move of the residual.
fn next_by(book: &Book, request: &Request, residual: &Residual, mv: &Move) -> Option<Next>
    requires { IsRequest request.now }
    ensures some { IfSome result (StepsTo book.now request.now residual.now mv.now) }
    ensures none { IfNone result ((next : After) → StepsTo book.now request.now residual.now mv.now next → ⊥) }
{
    if usize::from(residual.at.slice) >= request.slices.len() {
        return None;
    }
    match path_of(schedule_of(book), request, &residual.at, &mv.flights) {
        Some(path) => step_over(book, request, residual, mv, path.after),
        None => None,
    }
}

/// What a move of a residual leaves whose flights are a path that leads to this position.
fn step_over(
    book: &Book,
    request: &Request,
    residual: &Residual,
    mv: &Move,
    after: Option<Position>,
) -> Option<Next>
    requires request { IsRequest request.now }
    requires path { (fs : List DatedFlight) × IsPath book.now request.now.slices residual.now.at mv.now.flights fs after }
    ensures some { IfSome result (StepsTo book.now request.now residual.now mv.now) }
    ensures none { IfNone result ((next : After) → StepsTo book.now request.now residual.now mv.now next → ⊥) }
{
    let flights = flights_of(book, mv.flights.as_slice());
    let flights = flights.as_slice();
    book.limits();
    match book.fare(&key_on(flights, mv)) {
        Some(row) => step_with(book, request, residual, mv, after, flights, row),
        None => None,
    }
}

/// What a move of a residual leaves whose flights, a path that leads to this position, and whose fare are
/// these.
fn step_with(
    book: &Book,
    request: &Request,
    residual: &Residual,
    mv: &Move,
    after: Option<Position>,
    flights: &[Flight],
    row: &SheetRow,
) -> Option<Next>
    requires request { IsRequest request.now }
    requires path { IsPath book.now request.now.slices residual.now.at mv.now.flights flights.now after }
    requires flights { All IsFlight flights.now }
    requires live { IsLiveOn book.now mv.now flights.now row.now }
    requires fare { IsFare row.now.fare }
    requires rule { IsRule row.now.rule }
    ensures some { IfSome result (StepsTo book.now request.now residual.now mv.now) }
    ensures none { IfNone result ((next : After) → StepsTo book.now request.now residual.now mv.now next → ⊥) }
{
    let legs = legs_of(book, request.party, flights);
    if !is_offered(row, legs.as_slice(), flights) {
        return None;
    }
    let facts = facts_over(flights, row, closes(mv.role), request.sale);
    next_after(residual, after, &facts, mv.role, mv.slot)
}
