//! The JSON objects of a rule's categories, from the values of their members.
ghost use Rattle.std.specs.Prelude.{◌≡◌, IfOk, IfSome, OnOk};
ghost use Rattle.serde_json.specs.Data.{no_members};
ghost use Rattle.serde_json.specs.View.{view, members_view};
ghost use Rattle.rule_text.specs.Written as Written;

use crate::part::RulePart;
use fare_law::{Mem, Surcharge};
use serde_json::{Map, Value, json, put};
use std::alloc::{AllocError, Global};

/// Adds the member of a part that may be absent.
#[tactic(auto, using(crate::proofs::MemberLemmas::puts_some))]
pub fn put_optional<T: RulePart>(
    alloc: Global,
    members: &mut Map<String, Value>,
    name: &str,
    part: &Option<T>,
) -> Result<(), Mem>
    requires { IfSome part.now T.holds }
    ensures { OnOk result (Written.Puts T.writes part.now name.now (members_view members.old.entries) (members_view members.new.entries)) }
{
    match part {
        Some(part) => Ok(put(members, alloc, name, part.part_value(alloc)?)?),
        None => Ok(()),
    }
}

pub fn day_time(alloc: Global, days: Value, from: &str, to: &str) -> Result<Value, AllocError>
    ensures { IfOk result (λ value. view value ≡ Written.day_time_data (view days) from.now to.now) }
{
    json!(in alloc; {"days": days, "from": from, "to": to})
}

pub fn flight_rule(alloc: Global, allow: bool, flights: Value) -> Result<Value, AllocError>
    ensures { IfOk result (λ value. view value ≡ Written.flight_rule_data allow (view flights)) }
{
    json!(in alloc; {"allow": allow, "flights": flights})
}

pub fn min_stay(alloc: Global, days: u16, sunday: bool) -> Result<Value, AllocError>
    ensures { IfOk result (λ value. view value ≡ Written.min_stay_data days sunday) }
{
    json!(in alloc; {"days": days, "sunday": sunday})
}

/// The members of category 8 but for `places`.
pub fn stop_members(alloc: Global, charge: u64, max: u8) -> Result<Map<String, Value>, AllocError>
    ensures { IfOk result (λ members. members_view members.entries ≡ Written.stop_members charge max no_members) }
{
    let mut members = Map::new(alloc);
    put(&mut members, alloc, "charge", Value::from(charge))?;
    put(&mut members, alloc, "max", Value::from(max))?;
    Ok(members)
}

pub fn transfer_rule(alloc: Global, max: u8, online: bool) -> Result<Value, AllocError>
    ensures { IfOk result (λ value. view value ≡ Written.transfer_rule_data max online) }
{
    json!(in alloc; {"max": max, "online": online})
}

pub fn combine_rule(
    alloc: Global,
    end_on_end: &str,
    kinds: Value,
    partners: &str,
) -> Result<Value, AllocError>
    ensures { IfOk result (λ value. view value
        ≡ Written.combine_rule_data end_on_end.now (view kinds) partners.now) }
{
    json!(in alloc; {"end_on_end": end_on_end, "kinds": kinds, "partners": partners})
}

pub fn surcharge_entry(
    alloc: Global,
    entry: &Surcharge,
    carrier: &str,
    first: &str,
    last: &str,
) -> Result<Value, AllocError>
    ensures { IfOk result (λ value. view value
        ≡ Written.surcharge_data entry.now.amount carrier.now first.now entry.now.high last.now entry.now.low) }
{
    json!(in alloc; {
        "amount": entry.amount,
        "carrier": carrier,
        "first": first,
        "high": entry.high,
        "last": last,
        "low": entry.low,
    })
}
