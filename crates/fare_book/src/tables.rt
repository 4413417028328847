//! Tables of the live fares of single markets.
ghost use Rattle.std.specs.Prelude.{◌≡◌, ◌∷◌, [], false, List, None, Some, IfOk, OnOk, if◌then◌else◌};
ghost use Rattle.std.specs.List.{list_any};
ghost use Rattle.std.specs.Map.{lookup};
ghost use Rattle.fare_law.specs.Book.{same_key};
ghost use Rattle.fare_law.specs.Lists.{Each};
ghost use Rattle.fare_law.specs.declared.fares.FareKey.{FareKey as Key};
ghost use Rattle.fare_book.specs.Keys.{same_market};
ghost use Rattle.fare_book.specs.Tables.{AreKeyed, Changes, Fares, LiveRules, MarketHolds, TableOf, fares_in};
ghost use Rattle.fare_book.specs.declared.keys.Market.{Market as MarketName};
ghost use Rattle.fare_book.specs.declared.keys.RuleKey.{RuleKey as RuleName};

use crate::fare_table::FareTable;
use crate::keys::Market;
use crate::same_fares::is_key;
use fare_law::{Fare, FareKey, MarketSheet, Mem, SheetRow};
use std::alloc::Global;
use std::collections::{BTreeMap, HashMap};
use std::mem::replace;
use std::sync::Arc;

/// The table of a market, taken out of the tables or made from its sheet.
pub fn take_table(
    alloc: Global,
    tables: &mut HashMap<Market, FareTable>,
    sheets: &HashMap<Market, Arc<MarketSheet>>,
    market: Market,
) -> Result<FareTable, Mem>
    ensures table { IfOk result (λ t. (fare : Fares) (rule : LiveRules) (changed : List RuleName) → AreKeyed fare → MarketHolds fare rule changed sheets.now.entries tables.old.entries market → TableOf fare market (fares_in t)) }
    ensures others { OnOk result ((m : MarketName) → same_market m market ≡ false → lookup (same_market m) tables.new.entries ≡ lookup (same_market m) tables.old.entries) }
{
    match tables.remove(&market) {
        Some(table) => Ok(table),
        None => match sheets.get(&market) {
            Some(sheet) => table_of(alloc, sheet.rows.as_slice()),
            None => Ok(FareTable::Many(BTreeMap::new(alloc))),
        },
    }
}

/// The fares of these rows by key.
fn table_of(alloc: Global, rows: &[SheetRow]) -> Result<FareTable, Mem>
    ensures { IfOk result (λ t. (fare : Fares) → Each (λ row. fare row.fare.key ≡ Some row.fare) rows.now → (key : Key) → lookup (same_key key) (fares_in t) ≡ (if list_any (λ row. same_key key row.fare.key) rows.now then fare key else None)) }
{
    let mut table = FareTable::Many(BTreeMap::new(alloc));
    for row in rows {
        put_fare_in(alloc, &mut table, &row.fare)?;
    }
    Ok(table)
}

/// Puts a fare in place of that of its key, which is given back.
fn put_fare_in(alloc: Global, table: &mut FareTable, fare: &Fare) -> Result<Option<Fare>, Mem>
    ensures old { IfOk result (λ old. old ≡ lookup (same_key fare.now.key) (fares_in table.old)) }
    ensures puts { OnOk result ((key : Key) → lookup (same_key key) (fares_in table.new) ≡ (if same_key key fare.now.key then Some fare.now else lookup (same_key key) (fares_in table.old))) }
{
    match table {
        FareTable::One(only) => {
            if is_key(&only.key, &fare.key) {
                return Ok(Some(replace(only, fare.copied())));
            }
            let fares = tree_of(alloc, only, fare)?;
            *table = FareTable::Many(fares);
            Ok(None)
        }
        FareTable::Many(fares) => {
            if !fares.is_empty() {
                return put_among(fares, fare);
            }
            *table = FareTable::One(fare.copied());
            Ok(None)
        }
    }
}

/// Two fares by their keys; where they have one key, the second.
fn tree_of(alloc: Global, one: &Fare, other: &Fare) -> Result<BTreeMap<FareKey, Fare>, Mem>
    ensures { IfOk result (λ t. (key : Key) → lookup (same_key key) t.entries ≡ (if same_key key other.now.key then Some other.now else lookup (same_key key) ((one.now.key, one.now) ∷ []))) }
{
    let mut fares = BTreeMap::new(alloc);
    put_among(&mut fares, one)?;
    put_among(&mut fares, other)?;
    Ok(fares)
}

/// Puts a fare among others, in place of that of its key, which is given back.
fn put_among(fares: &mut BTreeMap<FareKey, Fare>, fare: &Fare) -> Result<Option<Fare>, Mem>
    ensures old { IfOk result (λ old. old ≡ lookup (same_key fare.now.key) fares.old.entries) }
    ensures puts { OnOk result ((key : Key) → lookup (same_key key) fares.new.entries ≡ (if same_key key fare.now.key then Some fare.now else lookup (same_key key) fares.old.entries)) }
{
    let old = fares.insert(fare.key.copied(), fare.copied())?;
    Ok(old)
}

/// Takes the fare of a key away.
fn drop_fare_from(alloc: Global, table: &mut FareTable, key: &FareKey) -> Option<Fare>
    ensures old { result ≡ lookup (same_key key.now) (fares_in table.old) }
    ensures drops { (k : Key) → lookup (same_key k) (fares_in table.new) ≡ (if same_key k key.now then None else lookup (same_key k) (fares_in table.old)) }
{
    match table {
        FareTable::One(only) => {
            if only.key != *key {
                return None;
            }
            let old = only.copied();
            *table = FareTable::Many(BTreeMap::new(alloc));
            Some(old)
        }
        FareTable::Many(fares) => fares.remove(key),
    }
}

/// Puts a fare into the table of its market, in place of that of its key, which is given back.
pub fn replace_fare(
    alloc: Global,
    tables: &mut HashMap<Market, FareTable>,
    sheets: &HashMap<Market, Arc<MarketSheet>>,
    fare: &Fare,
) -> Result<Option<Fare>, Mem>
    ensures { IfOk result (λ was. Changes sheets.now.entries tables.old.entries tables.new.entries fare.now.key (Some fare.now) was) }
{
    let market = market_of(&fare.key);
    // A market that was touched before has its table.
    if let Some(table) = tables.get_mut(&market) {
        return put_fare_in(alloc, table, fare);
    }
    let mut table = take_table(alloc, tables, sheets, market)?;
    let old = put_fare_in(alloc, &mut table, fare)?;
    tables.insert(market, table)?;
    Ok(old)
}

/// Takes the fare of a key out of the table of its market.
pub fn remove_fare(
    alloc: Global,
    tables: &mut HashMap<Market, FareTable>,
    sheets: &HashMap<Market, Arc<MarketSheet>>,
    key: &FareKey,
) -> Result<Option<Fare>, Mem>
    ensures { IfOk result (λ was. Changes sheets.now.entries tables.old.entries tables.new.entries key.now None was) }
{
    let market = market_of(key);
    if let Some(table) = tables.get_mut(&market) {
        return Ok(drop_fare_from(alloc, table, key));
    }
    let mut table = take_table(alloc, tables, sheets, market)?;
    let old = drop_fare_from(alloc, &mut table, key);
    tables.insert(market, table)?;
    Ok(old)
}

/// The market of a fare.
fn market_of(key: &FareKey) -> Market
    ensures { result ≡ record { from = key.now.from; to = key.now.to } }
{
    Market {
        from: key.from,
        to: key.to,
    }
}
