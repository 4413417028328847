//! Finding the key of a residual without adding anything.
ghost use Rattle.std.specs.Prelude.{◌≡◌, ◌↔◌, Some};
ghost use Rattle.residual_keys.specs.Kept.{IsResidual};
ghost use Rattle.residual_keys.specs.Residuals.{State};
ghost use Rattle.residual_table.specs.declared.key.ResidualKey.{ResidualKey as KeyData};
ghost use Rattle.residual_table.specs.Found.{key_at, slot_at};
ghost use Rattle.residual_table.specs.Keys.{AreTables, StandsFor, Tables};

use crate::key::ResidualKey;
use crate::laws::parts_tell;
use crate::parts::ResidualParts;
use flight_paths::Position;
use open_unit::OpenUnit;
use residual_keys::Residual;

impl ResidualParts {
    /// The key that stands for a residual. None exactly where none does.
    pub fn find(&self, residual: &Residual) -> Option<ResidualKey>
        ensures same { result ≡ key_at ⟦<Position as PartialEq>⟧.eq ⟦<OpenUnit as PartialEq>⟧.eq self.now residual.now }
    {
        let position = self.positions.get_index_of(&residual.at)?;
        let first = self.find_slot(&residual.unit1)?;
        let second = self.find_slot(&residual.unit2)?;
        Some(ResidualKey {
            position: position as u32,
            first,
            second,
            part: residual.part,
        })
    }

    /// The slot of an open unit that has a number, or of none.
    fn find_slot(&self, unit: &Option<OpenUnit>) -> Option<u32>
        ensures { result ≡ slot_at ⟦<OpenUnit as PartialEq>⟧.eq self.now.units unit.now }
    {
        match unit {
            None => Some(0),
            Some(unit) => {
                let number = self.units.get_index_of(unit)?;
                Some(number as u32 + 1)
            }
        }
    }
}

/// The key that is found is the one that stands for the residual.
pub fn keys_found()
    ensures { (t : Tables) (k : KeyData) (x : State) → AreTables t → IsResidual x → (key_at ⟦<Position as PartialEq>⟧.eq ⟦<OpenUnit as PartialEq>⟧.eq t x ≡ Some k) ↔ StandsFor t k x }
{
    parts_tell();
}
