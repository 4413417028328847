//! Ranges of days and of flight numbers.
ghost use Rattle.std.specs.Prelude.{◌≡◌, IfOk, IfSome};
ghost use Rattle.serde_json.specs.View.{view};
ghost use Rattle.rule_text.specs.Members as Members;
ghost use Rattle.rule_text.specs.Parts as Parts;
ghost use Rattle.fare_law.specs.RuleLimits.{IsDayRange, IsFlightRange};
ghost use Rattle.rule_text.specs.Written as Written;

use crate::RuleFault;
use crate::part::RulePart;
use crate::singles::{date_of, number_of};
use fare_law::{DayRange, FlightRange, Mem};
use market_time::day_text;
use name_text::{ascii_text, carrier_of, carrier_text};
use serde_json::{Value, json};
use std::alloc::{AllocError, Global};

impl RulePart for DayRange {
    ghost use Rattle.rule_text.specs.Parts.{day_range_of};
    ghost use Rattle.rule_text.specs.Written.{WritesDayRange};

    ghost form = { day_range_of };

    ghost holds = { IsDayRange };

    ghost writes = { WritesDayRange };

    fn read_part(value: &Value) -> Result<DayRange, RuleFault> {
        day_range(value).ok_or(RuleFault::Range)
    }

    #[tactic(auto, using(crate::proofs::WrittenLemmas::day_range_written))]
    fn part_value(&self, alloc: Global) -> Result<Value, Mem> {
        let first = day_text(self.first);
        let last = day_text(self.last);
        Ok(day_range_json(alloc, ascii_text(&first), ascii_text(&last))?)
    }
}

impl RulePart for FlightRange {
    ghost use Rattle.rule_text.specs.Parts.{flight_range_of};
    ghost use Rattle.rule_text.specs.Written.{WritesFlightRange};

    ghost form = { flight_range_of };

    ghost holds = { IsFlightRange };

    ghost writes = { WritesFlightRange };

    fn read_part(value: &Value) -> Result<FlightRange, RuleFault> {
        flight_range(value).ok_or(RuleFault::Range)
    }

    fn part_value(&self, alloc: Global) -> Result<Value, Mem> {
        let carrier = carrier_text(&self.carrier);
        Ok(flight_range_json(alloc, carrier, self.low, self.high)?)
    }
}

// Two dates in a list, the first not after the second.
fn day_range(value: &Value) -> Option<DayRange>
    ensures value { result ≡ Parts.day_range (view value.now) }
    ensures limits { IfSome result IsDayRange }
{
    if !has_items(value, 2) {
        return None;
    }
    let first = date_of(value.get(0)?)?;
    let last = date_of(value.get(1)?)?;
    if first <= last {
        Some(DayRange { first, last })
    } else {
        None
    }
}

// A carrier and two flight numbers in a list, the first not above the second.
fn flight_range(value: &Value) -> Option<FlightRange>
    ensures value { result ≡ Parts.flight_range (view value.now) }
    ensures limits { IfSome result IsFlightRange }
{
    if !has_items(value, 3) {
        return None;
    }
    let carrier = carrier_of(value.get(0)?.as_str()?.as_bytes())?;
    let low = number_of(value.get(1)?, 1, 9999)? as u16;
    let high = number_of(value.get(2)?, 1, 9999)? as u16;
    if low <= high {
        Some(FlightRange { carrier, low, high })
    } else {
        None
    }
}

// Whether the value is a list of so many items.
#[tactic(auto, using(crate::proofs::ItemLemmas::count_items))]
fn has_items(value: &Value, count: usize) -> bool
    ensures { result ≡ Members.has_items count (view value.now) }
{
    match value.as_array() {
        Some(items) => items.len() == count,
        None => false,
    }
}

fn day_range_json(alloc: Global, first: &str, last: &str) -> Result<Value, AllocError>
    ensures { IfOk result (λ value. view value ≡ Written.day_range_data first.now last.now) }
{
    json!(in alloc; [first, last])
}

fn flight_range_json(alloc: Global, carrier: &str, low: u16, high: u16) -> Result<Value, AllocError>
    ensures { IfOk result (λ value. view value ≡ Written.flight_range_data carrier.now low high) }
{
    json!(in alloc; [carrier, low, high])
}
