//! The rows of a certificate.
ghost use Rattle.std.specs.Prelude.{◌≡◌, ◌<◌, Some, length, slice_get};
ghost use Rattle.std.specs.Cmp.Lexicographic.{pointwise};
ghost use Rattle.certificate.specs.NumberedRows.{AreLive, rows_of};

use crate::CertRow;
use crate::numbered::NumberedRow;
use residual_table::ResidualParts;
use std::fmt;
use std::marker::Model;

/// The rows of a certificate. What their residuals consist of stands once, and each row is by its numbers, so that many
/// rows take little room.
#[derive(Drop)]
pub struct CertRows {
    parts: ResidualParts,
    rows: Vec<NumberedRow>,
}

/// Rows by the numbers of what their residuals consist of.
#[derive(Clone, Copy)]
pub struct RowNumbers<'c> {
    pub parts: &'c ResidualParts,
    pub rows: &'c [NumberedRow],
}

impl Model for CertRows {
    ghost use Rattle.std.specs.Prelude.{List};
    ghost use Rattle.certificate.specs.declared.parts.CertRow.{CertRow as Row};
    ghost use Rattle.certificate.specs.NumberedRows.{AreLive, rows_of};

    ghost Value = { List Row };

    ghost view = { λ c. rows_of c.parts c.rows.items };

    ghost invariant = { λ c. AreLive c.parts c.rows.items };
}

impl CertRows {
    /// Rows by the numbers of these parts.
    pub fn of(parts: ResidualParts, rows: Vec<NumberedRow>) -> CertRows
        requires { AreLive parts rows.items }
        ensures { result ≡ rows_of parts rows.items }
    {
        CertRows { parts, rows }
    }

    /// The rows by numbers.
    pub fn by_number(&self) -> RowNumbers<'_>
        ensures live { AreLive result.parts.now result.rows.now }
        ensures same { rows_of result.parts.now result.rows.now ≡ self.now }
    {
        RowNumbers {
            parts: &self.parts,
            rows: self.rows.as_slice(),
        }
    }

    /// The number of rows.
    pub fn len(&self) -> usize
        ensures { result ≡ length self.now }
    {
        self.rows.len()
    }

    /// The row at a place.
    pub fn row(&self, place: usize) -> CertRow
        requires { place < length self.now }
        ensures { slice_get self.now place ≡ Some result }
    {
        let row = &self.rows[place];
        CertRow {
            residual: self.parts.residual(&row.key()),
            bound: row.bound(),
        }
    }
}

impl PartialEq for CertRows {
    ghost use Rattle.std.specs.Cmp.Lexicographic.{lists_per, pointwise};
    ghost use Rattle.certificate.specs.contracts.parts.CertRowPartialEq.TheImpl.Laws.{laws-law};

    ghost eq = { λ v w. pointwise ⟦<CertRow as PartialEq>⟧.eq v w };

    ghost laws = { lists_per laws-law };

    fn eq(&self, other: &Self) -> bool {
        self.len() == other.len() && are_same(self, other)
    }
}

/// Whether rows, as many as the others, are the others.
fn are_same(one: &CertRows, other: &CertRows) -> bool
    requires { length one.now ≡ length other.now }
    ensures { result ≡ pointwise ⟦<CertRow as PartialEq>⟧.eq one.now other.now }
{
    for place in 0..one.len() {
        if one.row(place) != other.row(place) {
            return false;
        }
    }
    true
}

impl Eq for CertRows {
    ghost use Rattle.std.specs.Cmp.Lexicographic.{lists_equiv};
    ghost use Rattle.certificate.specs.contracts.parts.CertRowEq.TheImpl.Laws.{laws-law};

    ghost laws = { lists_equiv laws-law };
}

impl fmt::Debug for CertRows {
    fn fmt<W: fmt::Write>(&self, f: &mut fmt::Formatter<W>) -> fmt::Result {
        let mut list = f.debug_list();
        for place in 0..self.len() {
            list.entry(&self.row(place));
        }
        list.finish()
    }
}
