//! What a component leaves: the open units, the ticket part, and where the search then stands.
ghost use Rattle.std.specs.Prelude.{◌≡◌, [], IfNone, IfSome};
ghost use Rattle.open_unit.specs.Ranges.{PieceInRanges};
ghost use Rattle.residual_keys.specs.declared.residual.Next.{Next as After};
ghost use Rattle.residual_keys.specs.Kept.{PartKept};
ghost use Rattle.residual_keys.specs.Steps.{Leaves, left_at};

use crate::open_units::OpenUnits;
use crate::parts::{part_allows, part_with};
use crate::{Next, Residual, TicketPart};
use fare_law::Role;
use flight_paths::Position;
use open_unit::Facts;
use ticket_order::begins;

/// What a component leaves that leads to a position, or to the end of the journey, in this role and slot.
/// None exactly where it is no move of the residual: its unit doesn't allow it, the ticket doesn't, or
/// the journey ends with a unit open.
pub fn next_after(
    residual: &Residual,
    after: Option<Position>,
    facts: &Facts<'_>,
    role: Role,
    slot: u8,
) -> Option<Next>
    requires { PieceInRanges facts.now }
    ensures some { IfSome result (Leaves residual.now after facts.now role slot) }
    ensures none { IfNone result ((next : After) → Leaves residual.now after facts.now role slot next → ⊥) }
{
    residual.keeps();
    let part = part_with(&residual.part, begins(role), facts);
    if !part_allows(&part) {
        return None;
    }
    match OpenUnits::of(residual).after(role, slot, facts) {
        Some(units) => standing(after, &units, part),
        None => None,
    }
}

/// Where a search stands with these open units and this ticket part. None where the journey is complete
/// and a unit is open.
fn standing(after: Option<Position>, units: &OpenUnits, part: TicketPart) -> Option<Next>
    requires { PartKept part }
    ensures some { IfSome result (λ next. IfNone after (units.now ≡ []) × (next ≡ left_at after units.now part)) }
    ensures none { IfNone result (IfNone after (units.now ≡ []) → ⊥) }
{
    match after {
        Some(at) => Some(Next::At(units.residual(at, part))),
        None if units.is_empty() => Some(Next::Done),
        None => None,
    }
}
