//! Rows of a sheet, found by carrier and basis.
ghost use Rattle.std.specs.Prelude.{◌≡◌, ◌≢◌, MatchOption};
ghost use Rattle.fare_law.specs.Lists.{Each, EachPair, IsIn};
ghost use Rattle.fare_law.specs.Sheets.{RowBefore};
ghost use Rattle.fare_book.specs.Rows.{HasName, key_order};

use fare_law::{FareKey, MarketSheet, SheetRow};
use std::cmp::Ordering;

/// The row of a sheet with the carrier and the basis of a key.
pub fn row_of<'a>(sheet: &'a MarketSheet, key: &FareKey) -> Option<&'a SheetRow>
    requires { EachPair RowBefore sheet.now.rows }
    ensures { MatchOption result (Each (λ row. HasName key.now row → ⊥) sheet.now.rows) (λ row. IsIn row.now sheet.now.rows × HasName key.now row.now) }
{
    row_among(sheet.rows.as_slice(), key)
}

fn row_among<'a>(rows: &'a [SheetRow], key: &FareKey) -> Option<&'a SheetRow>
    requires { EachPair RowBefore rows.now }
    ensures { MatchOption result (Each (λ row. HasName key.now row → ⊥) rows.now) (λ row. IsIn row.now rows.now × HasName key.now row.now) }
{
    match rows.binary_search_by(|row| key_order(&row.fare.key, key)) {
        Ok(at) => Some(&rows[at]),
        Err(_) => None,
    }
}

/// How two keys of one market compare: by carrier, then by basis.
fn key_order(one: &FareKey, other: &FareKey) -> Ordering
    ensures { result ≡ key_order one.now other.now }
{
    let by_carrier = one.carrier.cmp(&other.carrier);
    by_carrier.then(one.basis.cmp(&other.basis))
}
