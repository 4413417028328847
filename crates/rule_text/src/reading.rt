//! Reading a rule.
ghost use Rattle.std.specs.Prelude.{◌≡◌, IfOk, IfSome};
ghost use Rattle.serde_json.specs.View.{view};
ghost use Rattle.fare_law.specs.RuleLimits.{IsRule, IsCombineRule, IsDayRange, IsDayTime, IsDays, IsFlightRule, IsListOf, IsMinStay, IsStopRule, IsSurcharge, IsTransferRule, IsTravelRule};
ghost use Rattle.rule_text.specs.Rules.{fare_parts_of, rule_of, stay_parts_of, travel_parts_of};

use crate::RuleFault;
use crate::members::{check_members, optional_at};
use fare_law::{
    ArrayVec, CombineRule, DayRange, DayTime, FlightRule, MinStay, Rule, StopRule, Surcharge,
    TransferRule, TravelRule,
};
use serde_json::Value;
use std::alloc::Global;

// The members of the object that puts a rule.
const MEMBERS: [&str; 13] = [
    "carrier", "rule", "cat2", "cat3", "cat4", "cat5", "cat6", "cat7", "cat8", "cat9", "cat10",
    "cat12", "cat14",
];

/// The rule that the object of a `put_rule` spells, or the first fault.
///
/// `Unknown` exactly where the object has a member other than `carrier`, `rule` and the
/// categories. Then the categories are judged ascending: the first one with a fault decides.
/// `carrier` and `rule` themselves aren't judged here, and may be absent. A value that is no
/// object is `Range`. Reading takes no memory: `Mem` is never told.
pub fn read_rule(_alloc: Global, value: &Value) -> Result<Rule, RuleFault>
    ensures rule { result ≡ rule_of (view value.now) }
    ensures limits { IfOk result IsRule }
{
    check_members(value, &[], &MEMBERS)?;
    let (cat2, cat3, cat4, cat5) = travel_parts(value)?;
    let (cat6, cat7, cat8, cat9) = stay_parts(value)?;
    let (cat10, cat12, cat14) = fare_parts(value)?;
    Ok(Rule {
        cat2,
        cat3,
        cat4,
        cat5,
        cat6,
        cat7,
        cat8,
        cat9,
        cat10,
        cat12,
        cat14,
    })
}

// The categories on days and flights.
type TravelParts = (
    Option<DayTime>,
    Option<ArrayVec<DayRange, 8>>,
    Option<FlightRule>,
    Option<u16>,
);

// What is read of them, or the first fault.
fn travel_parts(value: &Value) -> Result<TravelParts, RuleFault>
    ensures parts { result ≡ travel_parts_of (view value.now) }
    ensures limits { IfOk result (λ x. IfSome x.0 IsDayTime × IfSome x.1 (IsListOf 8 IsDayRange)
        × IfSome x.2 IsFlightRule × IfSome x.3 IsDays) }
{
    Ok((
        optional_at(value, "cat2")?,
        optional_at(value, "cat3")?,
        optional_at(value, "cat4")?,
        optional_at(value, "cat5")?,
    ))
}

// The categories on stays, stopovers and transfers.
type StayParts = (
    Option<MinStay>,
    Option<u16>,
    Option<StopRule>,
    Option<TransferRule>,
);

// What is read of them, or the first fault.
fn stay_parts(value: &Value) -> Result<StayParts, RuleFault>
    ensures parts { result ≡ stay_parts_of (view value.now) }
    ensures limits { IfOk result (λ x. IfSome x.0 IsMinStay × IfSome x.1 IsDays
        × IfSome x.2 IsStopRule × IfSome x.3 IsTransferRule) }
{
    Ok((
        optional_at(value, "cat6")?,
        optional_at(value, "cat7")?,
        optional_at(value, "cat8")?,
        optional_at(value, "cat9")?,
    ))
}

// The categories on combinations, surcharges and travel dates.
type FareParts = (
    Option<CombineRule>,
    Option<ArrayVec<Surcharge, 8>>,
    Option<TravelRule>,
);

// What is read of them, or the first fault.
fn fare_parts(value: &Value) -> Result<FareParts, RuleFault>
    ensures parts { result ≡ fare_parts_of (view value.now) }
    ensures limits { IfOk result (λ x. IfSome x.0 IsCombineRule
        × IfSome x.1 (IsListOf 8 IsSurcharge) × IfSome x.2 IsTravelRule) }
{
    Ok((
        optional_at(value, "cat10")?,
        optional_at(value, "cat12")?,
        optional_at(value, "cat14")?,
    ))
}
