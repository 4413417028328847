//! That the tests of keys and of the parts of residuals tell whether they are one.
ghost use Rattle.std.specs.declared.cmp.Ordering.TheVariants.{Equal, Less};
ghost use Rattle.std.specs.Prelude.{◌≡◌, ◌↔◌, IsTrue};
ghost use Rattle.flight_paths.specs.declared.positions.Position.{Position as PositionData};
ghost use Rattle.open_unit.specs.declared.units.OpenUnit.{OpenUnit as UnitData};
ghost use Rattle.open_unit.specs.Ranges.{UnitInRanges};
ghost use Rattle.residual_keys.specs.declared.parts.TicketPart.{TicketPart as PartData};
ghost use Rattle.residual_keys.specs.Kept.{IsResidual, PartKept};
ghost use Rattle.residual_keys.specs.ResidualOrder.{IsStrictOrder, PartBefore, PositionBefore, UnitBefore};
ghost use Rattle.residual_keys.specs.Residuals.{State};

use flight_paths::Position;
use open_unit::OpenUnit;
use residual_keys::{Residual, TicketPart, residual_order};

/// The test of residuals tells whether they are one.
fn residuals_tell()
    ensures { (x y : State) → IsResidual x → IsResidual y → IsTrue (⟦<Residual as PartialEq>⟧.eq x y) ↔ (x ≡ y) }
{
    residual_order();
    order_tells::<Residual>();
}

/// Values are equal where their order says so.
fn order_tells<T: Ord>()
    ensures { (a b : T) → IsTrue (T.eq a b) ↔ (T.cmp a b ≡ Equal) }
{}

/// So do the tests of what residuals consist of.
pub fn parts_tell()
    ensures positions { (a b : PositionData) → IsTrue (⟦<Position as PartialEq>⟧.eq a b) ↔ (a ≡ b) }
    ensures units { (u v : UnitData) → UnitInRanges u → UnitInRanges v → IsTrue (⟦<OpenUnit as PartialEq>⟧.eq u v) ↔ (u ≡ v) }
    ensures parts { (s t : PartData) → PartKept s → PartKept t → IsTrue (⟦<TicketPart as PartialEq>⟧.eq s t) ↔ (s ≡ t) }
{
    residuals_tell();
}

/// The orders of what residuals consist of are strict and total, and their comparisons tell them.
pub fn parts_order()
    ensures positions { IsStrictOrder PositionBefore }
    ensures units { IsStrictOrder UnitBefore }
    ensures parts { IsStrictOrder PartBefore }
    ensures position_less { (a b : PositionData) → (⟦<Position as Ord>⟧.cmp a b ≡ Less) ↔ PositionBefore a b }
    ensures unit_less { (u v : UnitData) → UnitInRanges u → UnitInRanges v → (⟦<OpenUnit as Ord>⟧.cmp u v ≡ Less) ↔ UnitBefore u v }
    ensures part_less { (s t : PartData) → PartKept s → PartKept t → (⟦<TicketPart as Ord>⟧.cmp s t ≡ Less) ↔ PartBefore s t }
    ensures part_same { (s t : PartData) → PartKept s → PartKept t → (⟦<TicketPart as Ord>⟧.cmp s t ≡ Equal) ↔ (s ≡ t) }
{
    residual_order();
}
