//! What a component does to the open units, in each of its roles.
ghost use Rattle.std.specs.Prelude.{◌≡◌, ◌<◌, ◌↔◌, List, [], ◌∷◌, ◌++◌, length, set, remove, slice_get, IfNone, IfSome, IsTrue, Some};
ghost use Rattle.fare_law.specs.declared.moves.Role.TheVariants.{Alone, Opens, GoesOn, Closes};
ghost use Rattle.open_unit.specs.declared.units.OpenUnit.{OpenUnit as Unit};
ghost use Rattle.open_unit.specs.Ranges.{PieceInRanges, UnitInRanges};
ghost use Rattle.residual_keys.specs.Kept.{PartKept};
ghost use Rattle.residual_keys.specs.Residuals.{UnitStep};

use crate::{Residual, TicketPart};
use fare_law::Role;
use flight_paths::Position;
use open_unit::{Facts, OpenUnit};
use std::marker::Model;

/// At most two open units, in the order of opening. Contracts see their list.
#[derive(Clone, Copy)]
pub struct OpenUnits {
    first: Option<OpenUnit>,
    /// None where `first` is.
    second: Option<OpenUnit>,
}

impl Model for OpenUnits {
    ghost use Rattle.std.specs.Prelude.{List, IfSome, slice_get};
    ghost use Rattle.open_unit.specs.declared.units.OpenUnit.{OpenUnit as Unit};
    ghost use Rattle.open_unit.specs.Ranges.{UnitInRanges};
    ghost use Rattle.residual_keys.specs.Kept.{InTurn, open_units};

    ghost Value = { List Unit };

    ghost view = { λ us. open_units us.first us.second };

    ghost invariant = { λ us. InTurn us.first us.second × IfSome us.first UnitInRanges × IfSome us.second UnitInRanges };

    ghost inverse = { λ us. record { first = slice_get us 0; second = slice_get us 1 } };
}

impl OpenUnits {
    /// The open units of a residual.
    pub fn of(residual: &Residual) -> OpenUnits
        ensures { result ≡ residual.now.units }
    {
        OpenUnits {
            first: residual.unit1,
            second: residual.unit2,
        }
    }

    /// The open units after a component in this role and slot. None exactly where it may not have them.
    pub(crate) fn after(self, role: Role, slot: u8, facts: &Facts<'_>) -> Option<OpenUnits>
        requires { PieceInRanges facts.now }
        ensures some { IfSome result (λ us. UnitStep role slot self facts.now us) }
        ensures none { IfNone result ((us : List Unit) → UnitStep role slot self facts.now us → ⊥) }
    {
        match role {
            Role::Alone => self.after_alone(slot, facts),
            Role::Opens => self.after_opening(slot, facts),
            Role::GoesOn => self.after_going_on(slot, facts),
            Role::Closes => self.after_closing(slot, facts),
        }
    }

    fn after_alone(self, slot: u8, facts: &Facts<'_>) -> Option<OpenUnits>
        requires { PieceInRanges facts.now }
        ensures some { IfSome result (λ us. UnitStep Alone slot self facts.now us) }
        ensures none { IfNone result ((us : List Unit) → UnitStep Alone slot self facts.now us → ⊥) }
    {
        if slot == 0 && OpenUnit::alone_by(facts) {
            Some(self)
        } else {
            None
        }
    }

    fn after_opening(self, slot: u8, facts: &Facts<'_>) -> Option<OpenUnits>
        requires { PieceInRanges facts.now }
        ensures some { IfSome result (λ us. UnitStep Opens slot self facts.now us) }
        ensures none { IfNone result ((us : List Unit) → UnitStep Opens slot self facts.now us → ⊥) }
    {
        if slot != 0 || self.second.is_some() {
            return None;
        }
        match OpenUnit::first_by(facts) {
            Some(unit) => Some(self.with(unit)),
            None => None,
        }
    }

    fn after_going_on(self, slot: u8, facts: &Facts<'_>) -> Option<OpenUnits>
        requires { PieceInRanges facts.now }
        ensures some { IfSome result (λ us. UnitStep GoesOn slot self facts.now us) }
        ensures none { IfNone result ((us : List Unit) → UnitStep GoesOn slot self facts.now us → ⊥) }
    {
        let Some(unit) = self.at(slot) else {
            return None;
        };
        match unit.go_on_by(facts) {
            Some(longer) => Some(self.replaced(slot, longer)),
            None => None,
        }
    }

    fn after_closing(self, slot: u8, facts: &Facts<'_>) -> Option<OpenUnits>
        requires { PieceInRanges facts.now }
        ensures some { IfSome result (λ us. UnitStep Closes slot self facts.now us) }
        ensures none { IfNone result ((us : List Unit) → UnitStep Closes slot self facts.now us → ⊥) }
    {
        let Some(unit) = self.at(slot) else {
            return None;
        };
        match unit.close_by(facts) {
            Some(_) => Some(self.without(slot)),
            None => None,
        }
    }

    /// The open unit in this slot.
    fn at(&self, slot: u8) -> Option<OpenUnit>
        ensures unit { result ≡ slice_get self.now slot }
        ensures in_ranges { IfSome result UnitInRanges }
    {
        match slot {
            0 => self.first,
            1 => self.second,
            _ => None,
        }
    }

    /// One more open unit, where there is room.
    fn with(self, unit: OpenUnit) -> OpenUnits
        requires room { length self < 2 }
        requires unit { UnitInRanges unit }
        ensures { result ≡ self ++ unit ∷ [] }
    {
        match self.first {
            Some(first) => OpenUnits {
                first: Some(first),
                second: Some(unit),
            },
            None => OpenUnits {
                first: Some(unit),
                second: None,
            },
        }
    }

    /// Another unit in a slot that has one.
    fn replaced(self, slot: u8, unit: OpenUnit) -> OpenUnits
        requires taken { slot < length self }
        requires unit { UnitInRanges unit }
        ensures { result ≡ set self slot unit }
    {
        if slot == 0 {
            OpenUnits {
                first: Some(unit),
                second: self.second,
            }
        } else {
            OpenUnits {
                first: self.first,
                second: Some(unit),
            }
        }
    }

    /// The units without that of a slot which has one.
    fn without(self, slot: u8) -> OpenUnits
        requires { slot < length self }
        ensures { result ≡ remove self slot }
    {
        if slot == 0 {
            OpenUnits {
                first: self.second,
                second: None,
            }
        } else {
            OpenUnits {
                first: self.first,
                second: None,
            }
        }
    }

    /// The residual at a position with these open units and this ticket part.
    pub(crate) fn residual(&self, at: Position, part: TicketPart) -> Residual
        requires { PartKept part }
        ensures { result ≡ record { at = at; units = self.now; part = part } }
    {
        Residual::new(at, self.first, self.second, part)
    }

    /// Whether no unit is open.
    pub fn is_empty(&self) -> bool
        ensures { IsTrue result ↔ (self.now ≡ []) }
    {
        self.first.is_none()
    }
}
