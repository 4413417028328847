//! Parts of a rule that are one number, one date, one name or one truth value.
ghost use Rattle.std.specs.Prelude.{◌≡◌, ◌<◌, IfOk, IfSome};
ghost use Rattle.std.specs.Int.{IsInRange};
ghost use Rattle.serde_json.specs.View.{view};
ghost use Rattle.market_time.specs.Dates.{IsInCentury};
ghost use Rattle.fare_law.specs.Limits.{IsPlace};
ghost use Rattle.rule_text.specs.Parts as Parts;

use crate::RuleFault;
use crate::part::RulePart;
use fare_law::{Mem, Place};
use json_form::text_at;
use market_time::{day_of, day_text, minute_of};
use name_text::{ascii_text, place_of, place_text};
use serde_json::Value;
use std::alloc::Global;

// A weekday: 1 for Monday to 7 for Sunday.
impl RulePart for u8 {
    ghost use Rattle.rule_text.specs.Parts.{weekday_of};
    ghost use Rattle.fare_law.specs.RuleLimits.{IsWeekday};
    ghost use Rattle.rule_text.specs.Written.{WritesNumber};

    ghost form = { weekday_of };

    ghost holds = { IsWeekday };

    ghost writes = { WritesNumber };

    fn read_part(value: &Value) -> Result<u8, RuleFault> {
        let day = number_of(value, 1, 7).ok_or(RuleFault::Range)?;
        Ok(day as u8)
    }

    fn part_value(&self, _alloc: Global) -> Result<Value, Mem> {
        Ok(Value::from(*self))
    }
}

// Days before or after a departure: 0 to 365.
impl RulePart for u16 {
    ghost use Rattle.rule_text.specs.Parts.{days_of};
    ghost use Rattle.fare_law.specs.RuleLimits.{IsDays};
    ghost use Rattle.rule_text.specs.Written.{WritesNumber};

    ghost form = { days_of };

    ghost holds = { IsDays };

    ghost writes = { WritesNumber };

    fn read_part(value: &Value) -> Result<u16, RuleFault> {
        let days = number_of(value, 0, 365).ok_or(RuleFault::Range)?;
        Ok(days as u16)
    }

    fn part_value(&self, _alloc: Global) -> Result<Value, Mem> {
        Ok(Value::from(*self))
    }
}

// A date, as its day.
impl RulePart for i32 {
    ghost use Rattle.rule_text.specs.Parts.{date_of};
    ghost use Rattle.rule_text.specs.Written.{WritesDate};

    ghost form = { date_of };

    ghost holds = { IsInCentury };

    ghost writes = { WritesDate };

    fn read_part(value: &Value) -> Result<i32, RuleFault> {
        date_of(value).ok_or(RuleFault::Range)
    }

    #[tactic(auto, using(crate::proofs::WrittenLemmas::date_written))]
    fn part_value(&self, alloc: Global) -> Result<Value, Mem> {
        let text = day_text(*self);
        Ok(Value::try_from_str(alloc, ascii_text(&text))?)
    }
}

impl RulePart for Place {
    ghost use Rattle.rule_text.specs.Parts.{place_form};
    ghost use Rattle.rule_text.specs.Written.{WritesPlace};

    ghost form = { place_form };

    ghost holds = { IsPlace };

    ghost writes = { WritesPlace };

    fn read_part(value: &Value) -> Result<Place, RuleFault> {
        read_place(value).ok_or(RuleFault::Range)
    }

    fn part_value(&self, alloc: Global) -> Result<Value, Mem> {
        Ok(Value::try_from_str(alloc, place_text(self))?)
    }
}

// A place by its name.
fn read_place(value: &Value) -> Option<Place>
    ensures value { result ≡ Parts.place_named (view value.now) }
    ensures form { IfSome result IsPlace }
{
    place_of(value.as_str()?.as_bytes())
}

/// A whole number from `low` to `high`.
pub fn number_of(value: &Value, low: u64, high: u64) -> Option<u64>
    ensures value { result ≡ Parts.number_of low high (view value.now) }
    ensures within { IfSome result (IsInRange low high) }
{
    let number = value.as_u64()?;
    if low <= number && number <= high {
        Some(number)
    } else {
        None
    }
}

/// A date, as its day.
pub fn date_of(value: &Value) -> Option<i32>
    ensures value { result ≡ Parts.day_of (view value.now) }
    ensures form { IfSome result IsInCentury }
{
    day_of(value.as_str()?.as_bytes()).ok()
}

/// A member that is a time of day, as its minute.
pub fn minute_at(value: &Value, name: &str) -> Option<u16>
    ensures value { result ≡ Parts.minute_at name.now (view value.now) }
    ensures within { IfSome result (λ minute. minute < 1440) }
{
    minute_of(text_at(value, name)?.as_bytes()).ok()
}

/// A member that is true or false.
pub fn truth_at(value: &Value, name: &str) -> Option<bool>
    ensures { result ≡ Parts.truth_at name.now (view value.now) }
{
    value.get(name)?.as_bool()
}
