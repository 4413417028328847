//! The sheets that a filing leaves.
ghost use Rattle.std.specs.Prelude.{◌≡◌, ◌≢◌, ◌∷◌, false, true, List, [], IfOk, OnOk, Some, IsSome};
ghost use Rattle.std.specs.List.{list_any};
ghost use Rattle.std.specs.Map.{lookup};
ghost use Rattle.fare_law.specs.Book.{Book as Version, free_rule, live_rule};
ghost use Rattle.fare_law.specs.Sheets.{SheetOf};
ghost use Rattle.fare_book.specs.Keeping.{Rules, Sheets, sheet_at};
ghost use Rattle.fare_book.specs.Keys.{same_market, same_rule};
ghost use Rattle.fare_book.specs.Ready.{IsRight, MakesSheet, Ready};
ghost use Rattle.fare_book.specs.Tables.{AreKeyed, Fares, LiveRules, MarketHolds, fares_in, rule_of};
ghost use Rattle.fare_book.specs.declared.keys.Market.{Market as MarketName};
ghost use Rattle.fare_book.specs.declared.keys.RuleKey.{RuleKey as RuleName};

use crate::fare_actions::rule_of;
use crate::fare_table::FareTable;
use crate::keys::{Market, RuleKey};
use crate::tables::take_table;
use fare_law::{Fare, FareKey, List, MarketSheet, Mem, Rule, Shared, SheetRow};
use std::alloc::Global;
use std::collections::{BTreeMap, HashMap, HashSet};
use std::sync::Arc;

/// Makes tables of the markets whose sheets have a rule that was changed.
pub fn touch_stale(
    alloc: Global,
    tables: &mut HashMap<Market, FareTable>,
    sheets: &HashMap<Market, Arc<MarketSheet>>,
    changed: &HashSet<RuleKey>,
) -> Result<(), Mem>
    ensures { OnOk result ((fare : Fares) (rule : LiveRules) → AreKeyed fare → ((m : MarketName) → MarketHolds fare rule changed.now.keys sheets.now.entries tables.old.entries m) → (m : MarketName) → MarketHolds fare rule [] sheets.now.entries tables.new.entries m) }
{
    if changed.is_empty() {
        return Ok(());
    }
    for (market, sheet) in sheets {
        touch(alloc, tables, sheets, *market, is_stale(sheet, changed))?;
    }
    Ok(())
}

/// Makes a table of a market where that is asked.
fn touch(
    alloc: Global,
    tables: &mut HashMap<Market, FareTable>,
    sheets: &HashMap<Market, Arc<MarketSheet>>,
    market: Market,
    asked: bool,
) -> Result<(), Mem>
    ensures holds { OnOk result ((fare : Fares) (rule : LiveRules) (changed : List RuleName) → AreKeyed fare → ((m : MarketName) → MarketHolds fare rule changed sheets.now.entries tables.old.entries m) → (m : MarketName) → MarketHolds fare rule changed sheets.now.entries tables.new.entries m) }
    ensures touched { OnOk result (asked ≡ true → IsSome (lookup (same_market market) tables.new.entries)) }
    ensures stay { OnOk result ((m : MarketName) → IsSome (lookup (same_market m) tables.old.entries) → IsSome (lookup (same_market m) tables.new.entries)) }
{
    if !asked {
        return Ok(());
    }
    let table = take_table(alloc, tables, sheets, market)?;
    tables.insert(market, table)?;
    Ok(())
}

/// Whether a row has a rule that was changed.
fn is_stale(sheet: &MarketSheet, changed: &HashSet<RuleKey>) -> bool
    ensures { result ≡ list_any (λ row. list_any (same_rule (rule_of row.fare)) changed.now.keys) sheet.now.rows }
{
    sheet
        .rows
        .as_slice()
        .iter()
        .any(|row| is_changed(row, changed))
}

/// Whether the rule of a row was changed.
fn is_changed(row: &SheetRow, changed: &HashSet<RuleKey>) -> bool
    ensures { result ≡ list_any (same_rule (rule_of row.now.fare)) changed.now.keys }
{
    changed.contains(&rule_of(&row.fare))
}

/// Puts the sheets of the touched markets in place of what they were.
pub fn place_tables(
    alloc: Global,
    sheets: &mut HashMap<Market, Arc<MarketSheet>>,
    tables: &HashMap<Market, FareTable>,
    rules: &HashMap<RuleKey, Shared<Rule>>,
) -> Result<(), Mem>
    requires { (b : Version) × Ready b sheets.old.entries tables.now.entries rules.now.entries }
    ensures { OnOk result ((b : Version) → Ready b sheets.old.entries tables.now.entries rules.now.entries → Sheets b sheets.new.entries) }
{
    for (market, table) in tables {
        place_table(alloc, sheets, *market, table, rules)?;
    }
    Ok(())
}

/// Puts the sheet of one market, or takes it away where no fare is left.
fn place_table(
    alloc: Global,
    sheets: &mut HashMap<Market, Arc<MarketSheet>>,
    market: Market,
    table: &FareTable,
    rules: &HashMap<RuleKey, Shared<Rule>>,
) -> Result<(), Mem>
    requires { (b : Version) × MakesSheet b market (fares_in table.now) rules.now.entries }
    ensures right { OnOk result ((b : Version) → MakesSheet b market (fares_in table.now) rules.now.entries → IsRight b market (sheet_at sheets.new.entries market)) }
    ensures others { OnOk result ((m : MarketName) → same_market m market ≡ false → sheet_at sheets.new.entries m ≡ sheet_at sheets.old.entries m) }
{
    match sheet_from(alloc, market, table, rules)? {
        Some(sheet) => {
            let sheet = Arc::new(alloc, sheet)?;
            sheets.insert(market, sheet)?;
        }
        None => {
            sheets.remove(&market);
        }
    }
    Ok(())
}

/// The sheet of a table. None where it has no fare.
fn sheet_from(
    alloc: Global,
    market: Market,
    table: &FareTable,
    rules: &HashMap<RuleKey, Shared<Rule>>,
) -> Result<Option<MarketSheet>, Mem>
    requires { (b : Version) × MakesSheet b market (fares_in table.now) rules.now.entries }
    ensures { IfOk result (λ s. (b : Version) → MakesSheet b market (fares_in table.now) rules.now.entries → IsRight b market s) }
{
    match table {
        FareTable::One(fare) => Ok(Some(sheet_of_one(alloc, market, fare, rules)?)),
        FareTable::Many(fares) => {
            if fares.is_empty() {
                return Ok(None);
            }
            Ok(Some(sheet_of(alloc, market, fares, rules)?))
        }
    }
}

/// The sheet of one fare.
fn sheet_of_one(
    alloc: Global,
    market: Market,
    fare: &Fare,
    rules: &HashMap<RuleKey, Shared<Rule>>,
) -> Result<MarketSheet, Mem>
    requires { (b : Version) × MakesSheet b market ((fare.now.key, fare.now) ∷ []) rules.now.entries }
    ensures { IfOk result (λ s. (b : Version) → MakesSheet b market ((fare.now.key, fare.now) ∷ []) rules.now.entries → SheetOf b market.from market.to s) }
{
    let free = Shared::new(alloc, free_rule())?;
    let rule = rule_for(rules, &free, fare).share()?;
    // room for this row alone, where a list that grows has room for four
    let mut rows = List::from_vec(Vec::with_capacity(alloc, 1)?);
    rows.push(SheetRow {
        fare: fare.copied(),
        rule,
    })?;
    MarketSheet::of(alloc, market.from, market.to, rows)
}

/// The sheet of fares, of which there are some.
fn sheet_of(
    alloc: Global,
    market: Market,
    fares: &BTreeMap<FareKey, Fare>,
    rules: &HashMap<RuleKey, Shared<Rule>>,
) -> Result<MarketSheet, Mem>
    requires some { fares.now.entries ≢ [] }
    requires made { (b : Version) × MakesSheet b market fares.now.entries rules.now.entries }
    ensures { IfOk result (λ s. (b : Version) → MakesSheet b market fares.now.entries rules.now.entries → SheetOf b market.from market.to s) }
{
    let free = Shared::new(alloc, free_rule())?;
    let mut rows = List::new(alloc);
    for (_, fare) in fares {
        let rule = rule_for(rules, &free, fare).share()?;
        rows.push(SheetRow {
            fare: fare.copied(),
            rule,
        })?;
    }
    MarketSheet::of(alloc, market.from, market.to, rows)
}

/// The live rule of a live fare, where the rule with no category is given.
fn rule_for<'a>(
    rules: &'a HashMap<RuleKey, Shared<Rule>>,
    free: &'a Shared<Rule>,
    fare: &Fare,
) -> &'a Shared<Rule>
    requires { free.now ≡ free_rule }
    ensures { (b : Version) → Rules b rules.now.entries → IsSome (live_rule b fare.now.key.carrier fare.now.rule) → live_rule b fare.now.key.carrier fare.now.rule ≡ Some result.now }
{
    if fare.rule == 0 {
        return free;
    }
    match rules.get(&rule_of(fare)) {
        Some(rule) => rule,
        None => free,
    }
}

/// The rule with no category.
fn free_rule() -> Rule
    ensures { result ≡ free_rule }
{
    Rule {
        cat2: None,
        cat3: None,
        cat4: None,
        cat5: None,
        cat6: None,
        cat7: None,
        cat8: None,
        cat9: None,
        cat10: None,
        cat12: None,
        cat14: None,
    }
}
