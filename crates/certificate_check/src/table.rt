//! The rows of a certificate, found by the keys of steps.
ghost use Rattle.std.specs.Prelude.{◌≡◌, map, IfOk};
ghost use Rattle.certificate_check.specs.Tables.{HasRows, entries_of};
ghost use Rattle.fare_law.specs.Lists.{AllDifferent};

use crate::bounds::RowBounds;
use certificate::{CertRows, NumberedRow};
use fare_law::Mem;
use search_steps::SearchSteps;
use std::alloc::Global;

/// The rows of a certificate, with their bounds by the keys of their residuals.
#[derive(Drop)]
pub struct Table<'c> {
    pub rows: &'c CertRows,
    pub bounds: RowBounds<'c>,
}

/// The table of rows whose residuals differ, of which the steps have the numbers.
pub fn table_of<'c>(
    alloc: Global,
    steps: &SearchSteps,
    rows: &'c CertRows,
    numbered: &'c [NumberedRow],
) -> Result<Table<'c>, Mem>
    requires differ { AllDifferent (map (λ row. row.residual) rows.now) }
    requires has { HasRows steps.now (entries_of numbered.now) rows.now }
    ensures rows { IfOk result (λ table. table.rows.now ≡ rows.now) }
    ensures bounds { IfOk result (λ table. HasRows steps.now table.bounds rows.now) }
{
    steps.keys_tell();
    let bounds = RowBounds::of(alloc, numbered)?;
    Ok(Table { rows, bounds })
}
