//! The sheet of a market.
ghost use Rattle.std.specs.Prelude.{◌≡◌, ◌<◌, ◌≤◌, length, map, IfOk};
ghost use Rattle.fare_law.specs.declared.limits.TheConstants.{MOST_FARES};
ghost use Rattle.fare_law.specs.Sheets.{AreRuleRows, HasRuleOf, IsSheet, Sheet, first_minute, last_minute};

use crate::{ArrayVec, Leg, List, MOST_FLIGHTS_OF_A_COMPONENT, Mem, Place, SheetRow};
use std::alloc::Global;
use std::marker::Model;
use std::sync::Arc;

/// The live fares of one market, ascending by carrier and basis, with columns for their times of
/// departure and for rows of one rule. Contracts see the market and the rows; the columns follow from
/// the rows.
#[derive(Drop)]
pub struct MarketSheet {
    pub from: Place,
    pub to: Place,
    pub rows: List<SheetRow>,
    /// The first minute at which each row's category 2 lets a component depart, or 0.
    pub opens: List<i32>,
    /// The last minute, or 1439.
    pub closes: List<i32>,
    /// For each row the place of one that has the same rule and doesn't stand after it.
    pub rule_rows: List<u32>,
}

impl Model for MarketSheet {
    ghost use Rattle.std.specs.Prelude.{◌≡◌, map};
    ghost use Rattle.fare_law.specs.Sheets.{AreRuleRows, Sheet, first_minute, last_minute};

    ghost Value = { Sheet };

    ghost view = { λ s. record { from = s.from; to = s.to; rows = s.rows } };

    ghost invariant = { λ s. (s.opens ≡ map first_minute s.rows) × (s.closes ≡ map last_minute s.rows) × AreRuleRows s.rows s.rule_rows };
}

impl MarketSheet {
    /// The sheet of these rows, at most `MOST_FARES` of this market, ascending by carrier and basis.
    pub fn of(
        alloc: Global,
        from: Place,
        to: Place,
        rows: List<SheetRow>,
    ) -> Result<MarketSheet, Mem>
        requires { IsSheet from to rows }
        ensures { IfOk result (λ s. s ≡ record { from = from; to = to; rows = rows }) }
    {
        let opens = opening_minutes(alloc, rows.as_slice())?;
        let closes = closing_minutes(alloc, rows.as_slice())?;
        let rule_rows = rule_rows(alloc, rows.as_slice())?;
        Ok(MarketSheet {
            from,
            to,
            rows,
            opens,
            closes,
            rule_rows,
        })
    }
}

fn opening_minutes(alloc: Global, rows: &[SheetRow]) -> Result<List<i32>, Mem>
    ensures { IfOk result (λ minutes. minutes ≡ map first_minute rows.now) }
{
    let mut minutes = List::new(alloc);
    for row in rows {
        minutes.push(opening_minute(row))?;
    }
    Ok(minutes)
}

fn closing_minutes(alloc: Global, rows: &[SheetRow]) -> Result<List<i32>, Mem>
    ensures { IfOk result (λ minutes. minutes ≡ map last_minute rows.now) }
{
    let mut minutes = List::new(alloc);
    for row in rows {
        minutes.push(closing_minute(row))?;
    }
    Ok(minutes)
}

fn opening_minute(row: &SheetRow) -> i32
    ensures { result ≡ first_minute row.now }
{
    match &row.rule.cat2 {
        Some(times) => times.from as i32,
        None => 0,
    }
}

fn closing_minute(row: &SheetRow) -> i32
    ensures { result ≡ last_minute row.now }
{
    match &row.rule.cat2 {
        Some(times) => times.to as i32,
        None => 1439,
    }
}

/// For each row the place of one that has the same rule and doesn't stand after it. Rows whose rules have
/// numbers that end alike are held against one another, so that a rule is mostly found where it came before.
fn rule_rows(alloc: Global, rows: &[SheetRow]) -> Result<List<u32>, Mem>
    requires few { length rows.now ≤ MOST_FARES }
    ensures { IfOk result (AreRuleRows rows.now) }
{
    let mut latest = [0u32; 256];
    let mut places = List::new(alloc);
    for at in 0..rows.len() {
        let ending = usize::from(rows[at].fare.rule & 255);
        let place = rule_row(rows, at, latest[ending]);
        latest[ending] = place;
        places.push(place)?;
    }
    Ok(places)
}

/// The place that is tried, where a row with the same rule stands there, or else the row's own.
fn rule_row(rows: &[SheetRow], at: usize, tried: u32) -> u32
    requires at { at < length rows.now }
    requires few { length rows.now ≤ MOST_FARES }
    ensures { HasRuleOf rows.now at result }
{
    let place = tried as usize;
    if place < at && rows[at].rule.is(&rows[place].rule) {
        tried
    } else {
        at as u32
    }
}

/// What offers are asked by: the legs of a component, and the sheet of a market.
#[derive(Drop)]
pub struct OfferKey {
    pub legs: ArrayVec<Leg, MOST_FLIGHTS_OF_A_COMPONENT>,
    pub sheet: Arc<MarketSheet>,
}
