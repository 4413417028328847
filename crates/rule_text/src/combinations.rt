//! Category 10: combinations.
ghost use Rattle.std.specs.Prelude.{◌≡◌};
ghost use Rattle.serde_json.specs.View.{view};
ghost use Rattle.rule_text.specs.Rules as Rules;
ghost use Rattle.rule_text.specs.Written as Written;

use crate::members::{check_members, part_at};
use crate::order::ascend;
use crate::part::RulePart;
use crate::{RuleFault, objects};
use fare_law::{ArrayVec, CombineRule, EndOnEnd, Mem, Partners, UnitKind};
use json_form::text_at;
use serde_json::Value;
use std::alloc::Global;

impl RulePart for CombineRule {
    ghost use Rattle.rule_text.specs.Rules.{combine_rule_of};
    ghost use Rattle.fare_law.specs.RuleLimits.{IsCombineRule};
    ghost use Rattle.rule_text.specs.Written.{WritesCombineRule};

    ghost form = { combine_rule_of };

    ghost holds = { IsCombineRule };

    ghost writes = { WritesCombineRule };

    fn read_part(value: &Value) -> Result<CombineRule, RuleFault> {
        check_members(value, &["kinds", "partners", "end_on_end"], &[])?;
        let kinds: ArrayVec<UnitKind, 4> = part_at(value, "kinds")?;
        let partners = partners_at(value).ok_or(RuleFault::Range)?;
        let end_on_end = end_on_end_at(value).ok_or(RuleFault::Range)?;
        if !ascend(kinds.as_slice()) {
            return Err(RuleFault::Range);
        }
        Ok(CombineRule {
            kinds,
            partners,
            end_on_end,
        })
    }

    #[tactic(auto, using(crate::proofs::WrittenLemmas::combine_rule_written))]
    fn part_value(&self, alloc: Global) -> Result<Value, Mem> {
        let kinds = self.kinds.part_value(alloc)?;
        let end_on_end = end_on_end_text(self.end_on_end);
        let partners = partners_text(self.partners);
        Ok(objects::combine_rule(alloc, end_on_end, kinds, partners)?)
    }
}

impl RulePart for UnitKind {
    ghost use Rattle.rule_text.specs.Rules.{unit_kind_of};
    ghost use Rattle.fare_law.specs.RuleLimits.{IsAnyKind};
    ghost use Rattle.rule_text.specs.Written.{WritesKind};

    ghost form = { unit_kind_of };

    ghost holds = { IsAnyKind };

    ghost writes = { WritesKind };

    fn read_part(value: &Value) -> Result<UnitKind, RuleFault> {
        let text = value.as_str().ok_or(RuleFault::Range)?;
        unit_kind_spelled(text).ok_or(RuleFault::Range)
    }

    fn part_value(&self, alloc: Global) -> Result<Value, Mem> {
        Ok(Value::try_from_str(alloc, unit_kind_text(*self))?)
    }
}

fn unit_kind_spelled(text: &str) -> Option<UnitKind>
    ensures { result ≡ Rules.unit_kind_spelled text.now }
{
    match text {
        "one_way" => Some(UnitKind::OneWay),
        "round_trip" => Some(UnitKind::RoundTrip),
        "open_jaw" => Some(UnitKind::OpenJaw),
        "circle" => Some(UnitKind::Circle),
        _ => None,
    }
}

// The member `partners`.
fn partners_at(value: &Value) -> Option<Partners>
    ensures { result ≡ Rules.partners_at (view value.now) }
{
    match text_at(value, "partners")? {
        "any" => Some(Partners::Any),
        "same_carrier" => Some(Partners::SameCarrier),
        "same_rule" => Some(Partners::SameRule),
        _ => None,
    }
}

// The member `end_on_end`.
fn end_on_end_at(value: &Value) -> Option<EndOnEnd>
    ensures { result ≡ Rules.end_on_end_at (view value.now) }
{
    match text_at(value, "end_on_end")? {
        "free" => Some(EndOnEnd::Free),
        "same_carrier" => Some(EndOnEnd::SameCarrier),
        "never" => Some(EndOnEnd::Never),
        _ => None,
    }
}

fn unit_kind_text(kind: UnitKind) -> &'static str
    ensures { result.now ≡ Written.kind_text kind }
{
    match kind {
        UnitKind::OneWay => "one_way",
        UnitKind::RoundTrip => "round_trip",
        UnitKind::OpenJaw => "open_jaw",
        UnitKind::Circle => "circle",
    }
}

fn partners_text(partners: Partners) -> &'static str
    ensures { result.now ≡ Written.partners_text partners }
{
    match partners {
        Partners::Any => "any",
        Partners::SameCarrier => "same_carrier",
        Partners::SameRule => "same_rule",
    }
}

fn end_on_end_text(end_on_end: EndOnEnd) -> &'static str
    ensures { result.now ≡ Written.end_on_end_text end_on_end }
{
    match end_on_end {
        EndOnEnd::Free => "free",
        EndOnEnd::SameCarrier => "same_carrier",
        EndOnEnd::Never => "never",
    }
}
