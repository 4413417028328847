//! First runs, one move after another.
ghost use Rattle.std.specs.Prelude.{◌≡◌, ◌≤◌, ◌<◌, ◌+◌, length, option_map, slice_get, Some, IfOk, IfSome, OnOk};
ghost use Rattle.fare_calendar.specs.FirstRuns.{FirstGoes, HasFirst, HasRun, TellRuns};
ghost use Rattle.graph_walk.specs.Steps.{KeepsStates, rows_of};
ghost use Rattle.search_steps.specs.Cases.{IsSameCase};
ghost use Rattle.search_steps.specs.Keys.{live, state};
ghost use Rattle.search_steps.specs.Leads.{level_of};

use fare_law::Mem;
use residual_keys::{book_limits, one_next};
use residual_table::ResidualKey;
use search_steps::{LeastMove, ResidualRows, SearchSteps};
use std::alloc::Global;
use ticket_order::{codes_tell, order_laws};

/// Finds a first run from a residual that has a run, in so many moves and one more.
pub fn first_run(
    alloc: Global,
    steps: &mut SearchSteps,
    rows: &ResidualRows,
    key: ResidualKey,
    more: u8,
) -> Result<(), Mem>
    requires rows { TellRuns steps.old rows.now.entries }
    requires live { live steps.old key }
    requires run { HasRun (rows_of (state steps.old) rows.now.entries) (state steps.old key) }
    requires many { 18 ≤ level_of (state steps.old key) + more }
    ensures first { OnOk result (HasFirst steps.old.case.book.now steps.old.case.request.now (state steps.old key)) }
    ensures case { IsSameCase steps.old steps.new }
{
    let Some(next) = first_left(alloc, steps, rows, key)? else {
        return Ok(());
    };
    if more == 0 {
        unreachable!()
    }
    first_run(alloc, steps, rows, next, more - 1)
}

/// What the first move of a first run from a residual leaves. None is the end of the journey.
fn first_left(
    alloc: Global,
    steps: &mut SearchSteps,
    rows: &ResidualRows,
    key: ResidualKey,
) -> Result<Option<ResidualKey>, Mem>
    requires rows { TellRuns steps.old rows.now.entries }
    requires live { live steps.old key }
    requires run { HasRun (rows_of (state steps.old) rows.now.entries) (state steps.old key) }
    ensures goes { IfOk result (λ next. FirstGoes steps.old.case.book.now steps.old.case.request.now (rows_of (state steps.old) rows.now.entries) (state steps.old key) (option_map (state steps.new) next)) }
    ensures live { IfOk result (λ next. IfSome next (live steps.new)) }
    ensures keeps { KeepsStates (live steps.old) (live steps.new) (state steps.old) (state steps.new) }
    ensures case { IsSameCase steps.old steps.new }
{
    book_limits(steps.case().book);
    one_next();
    codes_tell();
    order_laws();
    steps.keys_tell();
    let least = steps.least_moves(alloc, key, rows, 1)?;
    Ok(left_by_first(least.as_slice()))
}

/// What the first of some moves leaves.
fn left_by_first(least: &[LeastMove<ResidualKey>]) -> Option<ResidualKey>
    requires { 0 < length least.now }
    ensures { option_map (λ m. m.next) (slice_get least.now 0) ≡ Some result }
{
    least[0].next
}
