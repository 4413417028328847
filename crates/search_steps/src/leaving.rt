//! What a step leaves of a residual, by numbers.
ghost use Rattle.std.specs.Prelude.{◌≡◌, ◌↔◌, IsTrue, OnOk};
ghost use Rattle.residual_keys.specs.Kept.{PartKept};
ghost use Rattle.residual_keys.specs.Residuals.{PartAllows};
ghost use Rattle.search_steps.specs.Numbers.{AddsLeft, key_after, part_after};

use crate::numbered::Step;
use fare_law::Mem;
use graph_walk::Outcome;
use residual_keys::{TicketPart, one_more, part_allows, with_end};
use residual_table::ResidualKey;

/// Adds what a step leaves with open units that have these slots, where it leaves something.
#[inline(always)]
pub fn add_left(
    found: &mut Vec<Outcome<ResidualKey>>,
    key: ResidualKey,
    step: &Step,
    new: bool,
    first: u32,
    second: u32,
) -> Result<(), Mem>
    requires { PartKept key.part }
    ensures { OnOk result (AddsLeft key new first second step.now found.old.items found.new.items) }
{
    let part = part_after(&key.part, new, step);
    if !may_leave(&part, step.after, first) {
        return Ok(());
    }
    found.push(Outcome {
        next: key_after(step.after, first, second, part),
        price: step.price,
    })?;
    Ok(())
}

/// Whether the ticket part is allowed, and the journey doesn't end with a unit open.
fn may_leave(part: &TicketPart, after: u32, first: u32) -> bool
    ensures { IsTrue result ↔ (PartAllows part.now × (after ≡ 0 → first ≡ 0)) }
{
    part_allows(part) && (after != 0 || first == 0)
}

/// The ticket part with a step, whose component begins a unit or not.
fn part_after(part: &TicketPart, new: bool, step: &Step) -> TicketPart
    requires { PartKept part.now }
    ensures value { result ≡ part_after part.now new step.now }
    ensures kept { PartKept result }
{
    TicketPart {
        units: one_more(new, part.units),
        ends: with_end(step.ends, part.ends),
        carrier: part.carrier.with(step.carrier),
    }
}

/// The key that the slot of a position makes with the slots of open units. None at the end of the journey.
fn key_after(after: u32, first: u32, second: u32, part: TicketPart) -> Option<ResidualKey>
    ensures { result ≡ key_after after first second part }
{
    if after == 0 {
        return None;
    }
    Some(ResidualKey {
        position: after - 1,
        first,
        second,
        part,
    })
}
