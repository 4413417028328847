//! The categories on days, flights, stays and transfers.
ghost use Rattle.std.specs.Prelude.{◌≡◌};

use crate::members::{check_members, optional_at, part_at};
use crate::objects::put_optional;
use crate::order::ascend;
use crate::part::RulePart;
use crate::singles::{minute_at, truth_at};
use crate::texts::minute_text;
use crate::{RuleFault, objects};
use fare_law::{
    ArrayVec, DayTime, FlightRule, Mem, MinStay, StopRule, Surcharge, TransferRule, TravelRule,
};
use json_form::{between_at, carrier_at, date_at};
use market_time::day_text;
use name_text::{ascii_text, carrier_text};
use serde_json::{Map, Value};
use std::alloc::Global;

impl RulePart for DayTime {
    ghost use Rattle.rule_text.specs.Rules.{day_time_of};
    ghost use Rattle.fare_law.specs.RuleLimits.{IsDayTime};
    ghost use Rattle.rule_text.specs.Written.{WritesDayTime};

    ghost form = { day_time_of };

    ghost holds = { IsDayTime };

    ghost writes = { WritesDayTime };

    fn read_part(value: &Value) -> Result<DayTime, RuleFault> {
        check_members(value, &["days", "from", "to"], &[])?;
        let days: ArrayVec<u8, 7> = part_at(value, "days")?;
        let from = minute_at(value, "from").ok_or(RuleFault::Range)?;
        let to = minute_at(value, "to").ok_or(RuleFault::Range)?;
        if !ascend(days.as_slice()) || from > to {
            return Err(RuleFault::Range);
        }
        Ok(DayTime { days, from, to })
    }

    #[tactic(auto, using(crate::proofs::WrittenLemmas::day_time_written))]
    fn part_value(&self, alloc: Global) -> Result<Value, Mem> {
        let days = self.days.part_value(alloc)?;
        let from = minute_text(self.from);
        let to = minute_text(self.to);
        Ok(objects::day_time(alloc, days, ascii_text(&from), ascii_text(&to))?)
    }
}

impl RulePart for FlightRule {
    ghost use Rattle.rule_text.specs.Rules.{flight_rule_of};
    ghost use Rattle.fare_law.specs.RuleLimits.{IsFlightRule};
    ghost use Rattle.rule_text.specs.Written.{WritesFlightRule};

    ghost form = { flight_rule_of };

    ghost holds = { IsFlightRule };

    ghost writes = { WritesFlightRule };

    fn read_part(value: &Value) -> Result<FlightRule, RuleFault> {
        check_members(value, &["allow", "flights"], &[])?;
        Ok(FlightRule {
            allow: truth_at(value, "allow").ok_or(RuleFault::Range)?,
            flights: part_at(value, "flights")?,
        })
    }

    #[tactic(auto, using(crate::proofs::WrittenLemmas::flight_rule_written))]
    fn part_value(&self, alloc: Global) -> Result<Value, Mem> {
        let flights = self.flights.part_value(alloc)?;
        Ok(objects::flight_rule(alloc, self.allow, flights)?)
    }
}

impl RulePart for MinStay {
    ghost use Rattle.rule_text.specs.Rules.{min_stay_of};
    ghost use Rattle.fare_law.specs.RuleLimits.{IsMinStay};
    ghost use Rattle.rule_text.specs.Written.{WritesMinStay};

    ghost form = { min_stay_of };

    ghost holds = { IsMinStay };

    ghost writes = { WritesMinStay };

    fn read_part(value: &Value) -> Result<MinStay, RuleFault> {
        check_members(value, &["days", "sunday"], &[])?;
        Ok(MinStay {
            days: part_at(value, "days")?,
            sunday: truth_at(value, "sunday").ok_or(RuleFault::Range)?,
        })
    }

    fn part_value(&self, alloc: Global) -> Result<Value, Mem> {
        Ok(objects::min_stay(alloc, self.days, self.sunday)?)
    }
}

impl RulePart for StopRule {
    ghost use Rattle.rule_text.specs.Rules.{stop_rule_of};
    ghost use Rattle.fare_law.specs.RuleLimits.{IsStopRule};
    ghost use Rattle.rule_text.specs.Written.{WritesStopRule};

    ghost form = { stop_rule_of };

    ghost holds = { IsStopRule };

    ghost writes = { WritesStopRule };

    fn read_part(value: &Value) -> Result<StopRule, RuleFault> {
        check_members(value, &["max", "charge"], &["places"])?;
        Ok(StopRule {
            max: between_at(value, "max", 0, 3).ok_or(RuleFault::Range)? as u8,
            charge: between_at(value, "charge", 0, 1_000_000).ok_or(RuleFault::Range)?,
            places: optional_at(value, "places")?,
        })
    }

    fn part_value(&self, alloc: Global) -> Result<Value, Mem> {
        let mut members = objects::stop_members(alloc, self.charge, self.max)?;
        put_optional(alloc, &mut members, "places", &self.places)?;
        Ok(Value::Object(members))
    }
}

impl RulePart for TransferRule {
    ghost use Rattle.rule_text.specs.Rules.{transfer_rule_of};
    ghost use Rattle.fare_law.specs.RuleLimits.{IsTransferRule};
    ghost use Rattle.rule_text.specs.Written.{WritesTransferRule};

    ghost form = { transfer_rule_of };

    ghost holds = { IsTransferRule };

    ghost writes = { WritesTransferRule };

    fn read_part(value: &Value) -> Result<TransferRule, RuleFault> {
        check_members(value, &["max", "online"], &[])?;
        Ok(TransferRule {
            max: between_at(value, "max", 0, 3).ok_or(RuleFault::Range)? as u8,
            online: truth_at(value, "online").ok_or(RuleFault::Range)?,
        })
    }

    fn part_value(&self, alloc: Global) -> Result<Value, Mem> {
        Ok(objects::transfer_rule(alloc, self.max, self.online)?)
    }
}

impl RulePart for Surcharge {
    ghost use Rattle.rule_text.specs.Rules.{surcharge_of};
    ghost use Rattle.fare_law.specs.RuleLimits.{IsSurcharge};
    ghost use Rattle.rule_text.specs.Written.{WritesSurcharge};

    ghost form = { surcharge_of };

    ghost holds = { IsSurcharge };

    ghost writes = { WritesSurcharge };

    fn read_part(value: &Value) -> Result<Surcharge, RuleFault> {
        check_members(
            value,
            &["carrier", "low", "high", "first", "last", "amount"],
            &[],
        )?;
        let carrier = carrier_at(value, "carrier").ok_or(RuleFault::Range)?;
        let low = between_at(value, "low", 1, 9999).ok_or(RuleFault::Range)? as u16;
        let high = between_at(value, "high", 1, 9999).ok_or(RuleFault::Range)? as u16;
        let first = date_at(value, "first").ok_or(RuleFault::Range)?;
        let last = date_at(value, "last").ok_or(RuleFault::Range)?;
        let amount = between_at(value, "amount", 0, 1_000_000).ok_or(RuleFault::Range)?;
        if low > high || first > last {
            return Err(RuleFault::Range);
        }
        Ok(Surcharge {
            carrier,
            low,
            high,
            first,
            last,
            amount,
        })
    }

    fn part_value(&self, alloc: Global) -> Result<Value, Mem> {
        let first = day_text(self.first);
        let last = day_text(self.last);
        Ok(objects::surcharge_entry(
            alloc,
            self,
            carrier_text(&self.carrier),
            ascii_text(&first),
            ascii_text(&last),
        )?)
    }
}

impl RulePart for TravelRule {
    ghost use Rattle.rule_text.specs.Rules.{travel_rule_of};
    ghost use Rattle.fare_law.specs.RuleLimits.{IsTravelRule};
    ghost use Rattle.rule_text.specs.Written.{WritesTravelRule};

    ghost form = { travel_rule_of };

    ghost holds = { IsTravelRule };

    ghost writes = { WritesTravelRule };

    fn read_part(value: &Value) -> Result<TravelRule, RuleFault> {
        check_members(value, &[], &["ranges", "by"])?;
        Ok(TravelRule {
            ranges: optional_at(value, "ranges")?,
            by: optional_at(value, "by")?,
        })
    }

    fn part_value(&self, alloc: Global) -> Result<Value, Mem> {
        let mut members = Map::new(alloc);
        put_optional(alloc, &mut members, "by", &self.by)?;
        put_optional(alloc, &mut members, "ranges", &self.ranges)?;
        Ok(Value::Object(members))
    }
}
