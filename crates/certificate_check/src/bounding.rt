//! The bound check.
ghost use Rattle.std.specs.Prelude.{◌≡◌, ◌↔◌, ◌+◌, ◌<◌, ◌^◌, IfOk, IfSome, IsTrue, MatchOption, length, map, option_map, Some};
ghost use Rattle.certificate.specs.BoundCheck.{BoundWithin, BoundsFail, BoundsHold};
ghost use Rattle.certificate_check.specs.Bounds.{Allows, IsAllowed};
ghost use Rattle.certificate_check.specs.Tables.{HasRows, IsLater};
ghost use Rattle.fare_law.specs.Limits.{IsRequest};
ghost use Rattle.fare_law.specs.Lists.{AllDifferent, Each};
ghost use Rattle.graph_walk.specs.Steps.{LeadToLive, outcomes_of};
ghost use Rattle.search_steps.specs.Keys.{live, state};

use crate::table::Table;
use certificate::CertRow;
use fare_law::Mem;
use graph_walk::Outcome;
use residual_table::ResidualKey;
use search_steps::SearchSteps;
use std::alloc::Global;

/// The place where the bound check fails, if it does.
pub fn bounds_fail(
    alloc: Global,
    steps: &mut SearchSteps,
    table: &Table,
) -> Result<Option<u32>, Mem>
    requires request { IsRequest steps.old.case.request.now }
    requires differ { AllDifferent (map (λ row. row.residual) table.now.rows.now) }
    requires few { length table.now.rows.now < 2 ^ 32 }
    requires table { HasRows steps.old table.now.bounds table.now.rows.now }
    ensures fails { IfOk result (λ place. MatchOption place (BoundsHold steps.old.case.book.now steps.old.case.request.now table.now.rows.now)
        (BoundsFail steps.old.case.book.now steps.old.case.request.now table.now.rows.now)) }
    ensures later { IsLater steps.old steps.new }
{
    for i in 0..table.rows.len() {
        if !is_right(alloc, steps, table, &table.rows.row(i), table.bounds.key(i))? {
            return Ok(Some(i as u32 + 1));
        }
    }
    Ok(None)
}

/// Whether whatever a move of a row leaves allows its bound. The key stands for the row's residual.
fn is_right(
    alloc: Global,
    steps: &mut SearchSteps,
    table: &Table,
    row: &CertRow,
    key: ResidualKey,
) -> Result<bool, Mem>
    requires request { IsRequest steps.old.case.request.now }
    requires differ { AllDifferent (map (λ row. row.residual) table.now.rows.now) }
    requires table { HasRows steps.old table.now.bounds table.now.rows.now }
    requires live { live steps.old key }
    requires state { state steps.old key ≡ row.now.residual }
    ensures right { IfOk result (λ right. IsTrue right ↔ IsAllowed steps.old.case.book.now steps.old.case.request.now table.now.rows.now row.now) }
    ensures later { IsLater steps.old steps.new }
{
    let outcomes = steps.outcomes(alloc, key)?;
    let right = all_allow(steps, table, row, outcomes.as_slice());
    steps.take_back(outcomes);
    Ok(right)
}

/// Whether each outcome allows a row's bound.
fn all_allow(
    steps: &SearchSteps,
    table: &Table,
    row: &CertRow,
    outcomes: &[Outcome<ResidualKey>],
) -> bool
    requires differ { AllDifferent (map (λ row. row.residual) table.now.rows.now) }
    requires table { HasRows steps.now table.now.bounds table.now.rows.now }
    requires live { LeadToLive (live steps.now) outcomes.now }
    ensures { IsTrue result ↔ Each (λ o. Allows table.now.rows.now row.now o.next o.price) (outcomes_of (state steps.now) outcomes.now) }
{
    for outcome in outcomes {
        if !allows(steps, table, row, outcome) {
            return false;
        }
    }
    true
}

/// Whether an outcome allows a row's bound.
fn allows(steps: &SearchSteps, table: &Table, row: &CertRow, outcome: &Outcome<ResidualKey>) -> bool
    requires differ { AllDifferent (map (λ row. row.residual) table.now.rows.now) }
    requires table { HasRows steps.now table.now.bounds table.now.rows.now }
    requires live { IfSome outcome.now.next (live steps.now) }
    ensures { IsTrue result ↔ Allows table.now.rows.now row.now (option_map (state steps.now) outcome.now.next) outcome.now.price }
{
    steps.keys_tell();
    let Some(key) = outcome.next else {
        return is_within(row, u128::from(outcome.price));
    };
    match table.bounds.get(key) {
        Some(Some(further)) => is_within(row, total_of(outcome.price, further)),
        Some(None) => true,
        None => false,
    }
}

/// A price and a bound together.
fn total_of(price: u64, further: u64) -> u128
    ensures { result ≡ price + further }
{
    u128::from(price) + u128::from(further)
}

/// Whether a row has a bound and it is at most this price.
fn is_within(row: &CertRow, price: u128) -> bool
    ensures { IsTrue result ↔ BoundWithin row.now price }
{
    let Some(bound) = row.bound else {
        return false;
    };
    u128::from(bound) <= price
}
