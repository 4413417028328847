//! The residuals that keys stand for.
ghost use Rattle.std.specs.Prelude.{◌≡◌, ◌<◌, ◌↔◌, IfSome, IsTrue, Some, length, slice_get};
ghost use Rattle.open_unit.specs.Ranges.{UnitInRanges};
ghost use Rattle.residual_keys.specs.Residuals.{State};
ghost use Rattle.residual_table.specs.declared.key.ResidualKey.{ResidualKey as KeyData};
ghost use Rattle.residual_table.specs.Keys.{Grows, HasSlot, IsLive, IsSlot, KeepsResiduals, StandsFor, Tables};

use crate::key::ResidualKey;
use crate::laws::parts_tell;
use crate::parts::ResidualParts;
use flight_paths::Position;
use open_unit::OpenUnit;
use residual_keys::Residual;

impl ResidualParts {
    /// The residual that a key stands for.
    pub fn residual(&self, key: &ResidualKey) -> Residual
        requires { IsLive self.now key.now }
        ensures { StandsFor self.now key.now result }
    {
        let at = self.position_at(key.position);
        let first = self.unit_in(key.first);
        let second = self.unit_in(key.second);
        Residual::new(at, first, second, key.part)
    }

    /// The position of a number.
    pub fn position_at(&self, number: u32) -> Position
        requires { number < length self.now.positions }
        ensures { slice_get self.now.positions number ≡ Some result }
    {
        self.positions.as_slice()[number as usize]
    }

    /// The positions, by number.
    pub fn all_positions(&self) -> &[Position]
        ensures { result.now ≡ self.now.positions }
    {
        self.positions.as_slice()
    }

    /// The open units, by number.
    pub fn all_units(&self) -> &[OpenUnit]
        ensures { result.now ≡ self.now.units }
    {
        self.units.as_slice()
    }

    /// The open unit of a slot.
    pub fn unit_in(&self, slot: u32) -> Option<OpenUnit>
        requires { HasSlot self.now.units slot }
        ensures slot { IsSlot self.now.units slot result }
        ensures in_ranges { IfSome result UnitInRanges }
    {
        if slot == 0 {
            return None;
        }
        Some(self.units.as_slice()[(slot - 1) as usize])
    }

    /// Keys that stand for residuals are equal exactly where these are.
    pub fn keys_tell(&self)
        ensures { (k l : KeyData) (x y : State) → StandsFor self.now k x → StandsFor self.now l y → IsTrue (⟦<ResidualKey as PartialEq>⟧.eq k l) ↔ (x ≡ y) }
    {
        parts_tell();
        let _count = self.positions.len();
    }
}

/// A key that stands for a residual goes on to stand for it while tables grow.
pub fn keys_stay()
    ensures { (old new : Tables) → Grows old new → KeepsResiduals old new }
{}
