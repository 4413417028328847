//! Keys of residuals, and the numbers of what they consist of.
ghost use Rattle.std.specs.Prelude.{◌≡◌, ◌<◌, IfOk, IfSome, Some, slice_get};
ghost use Rattle.open_unit.specs.Ranges.{UnitInRanges};
ghost use Rattle.residual_table.specs.Keys.{Grows, IsSlot, StandsFor};

use crate::adding::add;
use crate::key::ResidualKey;
use crate::laws::parts_tell;
use crate::parts::ResidualParts;
use fare_law::Mem;
use flight_paths::Position;
use open_unit::OpenUnit;
use residual_keys::Residual;

/// Each call gives a number to what has none. It answers `Mem` only for want of memory or of a number: a table has
/// 4,294,967,295. Each number goes on to stand for what it stood for, whatever the answer.
impl ResidualParts {
    /// The number of a position.
    pub fn position(&mut self, at: Position) -> Result<u32, Mem>
        ensures number { IfOk result (λ n. slice_get self.new.positions n ≡ Some at) }
        ensures small { IfOk result (λ n. n < 4294967295) }
        ensures grows { Grows self.old self.new }
    {
        parts_tell();
        add(&mut self.positions, at)
    }

    /// The number of an open unit.
    pub fn unit(&mut self, unit: &OpenUnit) -> Result<u32, Mem>
        requires { UnitInRanges unit.now }
        ensures number { IfOk result (λ n. slice_get self.new.units n ≡ Some unit.now) }
        ensures small { IfOk result (λ n. n < 4294967295) }
        ensures grows { Grows self.old self.new }
    {
        parts_tell();
        add(&mut self.units, *unit)
    }

    /// The slot of a position, or of none: one more than its number, or 0.
    pub fn position_slot(&mut self, at: &Option<Position>) -> Result<u32, Mem>
        ensures slot { IfOk result (λ n. IsSlot self.new.positions n at.now) }
        ensures grows { Grows self.old self.new }
    {
        match at {
            None => Ok(0),
            Some(at) => {
                let number = self.position(*at)?;
                Ok(number + 1)
            }
        }
    }

    /// The slot of an open unit, or of none.
    pub fn unit_slot(&mut self, unit: &Option<OpenUnit>) -> Result<u32, Mem>
        requires { IfSome unit.now UnitInRanges }
        ensures slot { IfOk result (λ n. IsSlot self.new.units n unit.now) }
        ensures grows { Grows self.old self.new }
    {
        match unit {
            None => Ok(0),
            Some(unit) => {
                let number = self.unit(unit)?;
                Ok(number + 1)
            }
        }
    }

    /// The key of a residual.
    pub fn key(&mut self, residual: &Residual) -> Result<ResidualKey, Mem>
        ensures stands { IfOk result (λ k. StandsFor self.new k residual.now) }
        ensures grows { Grows self.old self.new }
    {
        residual.keeps();
        let position = self.position(residual.at)?;
        let first = self.unit_slot(&residual.unit1)?;
        let second = self.unit_slot(&residual.unit2)?;
        Ok(ResidualKey {
            position,
            first,
            second,
            part: residual.part,
        })
    }
}
