//! Reading an action.
ghost use Rattle.std.specs.Prelude.{◌≡◌, IfOk, IfSome};
ghost use Rattle.serde_json.specs.View.{view};
ghost use Rattle.fare_law.specs.FilingLimits.{IsAction, IsRuleNumber};
ghost use Rattle.fare_law.specs.Limits.{IsSeatKey};
ghost use Rattle.fare_filing.specs.Actions as Actions;
ghost use Rattle.fare_filing.specs.Reading as Reading;
ghost use Rattle.fare_filing.specs.Reading.{Tells};

use crate::FilingFault;
use fare_law::{Action, SeatKey, Shared};
use json_form::{between_at, carrier_at, has_members, place_at, read_fare, read_fare_key, text_at};
use name_text::{seat_day_of, seats_of};
use rule_text::read_rule;
use serde_json::Value;
use std::alloc::Global;

/// The action that a value spells, or its fault under the action's number.
#[tactic(auto, using(crate::proofs::ActionLemmas::told_is))]
pub fn read_action(alloc: Global, value: &Value, action: u32) -> Result<Action, FilingFault>
    ensures action { Tells result (Reading.action_spelled action (view value.now)) }
    ensures limits { IfOk result IsAction }
{
    let shape = FilingFault::Shape { action };
    if !has_members(value, 1) {
        return Err(shape);
    }
    match value.get("put_rule") {
        Some(rule) => put_rule(alloc, rule, action),
        None => plain_action(value).ok_or(shape),
    }
}

// The action that puts a rule. A bad carrier or number comes before the rule's own faults.
fn put_rule(alloc: Global, value: &Value, action: u32) -> Result<Action, FilingFault>
    ensures action { Tells result (Reading.put_rule action (view value.now)) }
    ensures limits { IfOk result IsAction }
{
    let shape = FilingFault::Shape { action };
    let carrier = carrier_at(value, "carrier").ok_or(shape)?;
    let number = rule_number(value).ok_or(shape)?;
    match read_rule(alloc, value) {
        Ok(rule) => {
            let rule = Shared::new(alloc, rule)?;
            Ok(Action::PutRule(carrier, number, rule))
        }
        Err(fault) => Err(FilingFault::Rule { action, fault }),
    }
}

// The action that the one member spells, if it is no `put_rule`.
fn plain_action(value: &Value) -> Option<Action>
    ensures action { result ≡ Actions.plain_action (view value.now) }
    ensures limits { IfSome result IsAction }
{
    if let Some(fare) = value.get("put_fare") {
        return put_fare(fare);
    }
    if let Some(key) = value.get("drop_fare") {
        return drop_fare(key);
    }
    if let Some(name) = value.get("drop_rule") {
        return drop_rule(name);
    }
    if let Some(seats) = value.get("put_seats") {
        return put_seats(seats);
    }
    drop_seats(value.get("drop_seats")?)
}

fn put_fare(value: &Value) -> Option<Action>
    ensures action { result ≡ Actions.put_fare (view value.now) }
    ensures limits { IfSome result IsAction }
{
    Some(Action::PutFare(read_fare(value)?))
}

fn drop_fare(value: &Value) -> Option<Action>
    ensures action { result ≡ Actions.drop_fare (view value.now) }
    ensures limits { IfSome result IsAction }
{
    if !has_members(value, 4) {
        return None;
    }
    Some(Action::DropFare(read_fare_key(value)?))
}

fn drop_rule(value: &Value) -> Option<Action>
    ensures action { result ≡ Actions.drop_rule (view value.now) }
    ensures limits { IfSome result IsAction }
{
    if !has_members(value, 2) {
        return None;
    }
    let carrier = carrier_at(value, "carrier")?;
    let number = rule_number(value)?;
    Some(Action::DropRule(carrier, number))
}

fn put_seats(value: &Value) -> Option<Action>
    ensures action { result ≡ Actions.put_seats (view value.now) }
    ensures limits { IfSome result IsAction }
{
    if !has_members(value, 5) {
        return None;
    }
    let key = seat_key(value)?;
    let seats = seats_of(text_at(value, "seats")?.as_bytes())?;
    Some(Action::PutSeats(key, seats))
}

fn drop_seats(value: &Value) -> Option<Action>
    ensures action { result ≡ Actions.drop_seats (view value.now) }
    ensures limits { IfSome result IsAction }
{
    if !has_members(value, 4) {
        return None;
    }
    Some(Action::DropSeats(seat_key(value)?))
}

// The member `rule` of a rule that may be put and dropped.
fn rule_number(value: &Value) -> Option<u16>
    ensures number { result ≡ Actions.rule_number (view value.now) }
    ensures limits { IfSome result IsRuleNumber }
{
    let number = between_at(value, "rule", 1, 9999)?;
    Some(number as u16)
}

// What names a seat row, by the members `carrier`, `number`, `from` and `date`.
fn seat_key(value: &Value) -> Option<SeatKey>
    ensures key { result ≡ Actions.seat_key (view value.now) }
    ensures limits { IfSome result IsSeatKey }
{
    Some(SeatKey {
        carrier: carrier_at(value, "carrier")?,
        number: between_at(value, "number", 1, 9999)? as u16,
        from: place_at(value, "from")?,
        day: seat_day_of(text_at(value, "date")?.as_bytes())?,
    })
}
