//! The moves of one component, in each role and slot that it may have.
ghost use Rattle.std.specs.Prelude.{◌≡◌, OnOk};
ghost use Rattle.open_unit.specs.Ranges.{PieceInRanges};
ghost use Rattle.residual_keys.specs.Gathered.{Adds, IsChoice, IsChoiceOf};

use crate::leaving::next_after;
use crate::priced::PricedComponent;
use crate::{Chosen, Residual};
use fare_law::{List, Mem, Move, Role};

/// Adds the moves of a component on a path of a residual, in whatever role and slot it may have.
pub fn add_choices(
    found: &mut List<Chosen>,
    residual: &Residual,
    component: &PricedComponent<'_>,
) -> Result<(), Mem>
    requires { PieceInRanges component.now.facts }
    ensures { OnOk result (Adds (IsChoiceOf residual.now component.now) found.old found.new) }
{
    residual.keeps();
    add_choice(found, residual, component, Role::Alone, 0)?;
    add_choice(found, residual, component, Role::Opens, 0)?;
    add_choice(found, residual, component, Role::GoesOn, 0)?;
    add_choice(found, residual, component, Role::GoesOn, 1)?;
    add_choice(found, residual, component, Role::Closes, 0)?;
    add_choice(found, residual, component, Role::Closes, 1)?;
    Ok(())
}

/// Adds the move of a component on a path in one role and slot, where it may have them.
fn add_choice(
    found: &mut List<Chosen>,
    residual: &Residual,
    component: &PricedComponent<'_>,
    role: Role,
    slot: u8,
) -> Result<(), Mem>
    requires { PieceInRanges component.now.facts }
    ensures { OnOk result (Adds (IsChoice residual.now component.now role slot) found.old found.new) }
{
    match next_after(residual, component.path.after, &component.facts, role, slot) {
        Some(next) => {
            found.push(Chosen {
                mv: move_of(component, role, slot),
                price: component.price,
                next,
            })?;
            Ok(())
        }
        None => Ok(()),
    }
}

/// The move of a component in a role and slot.
fn move_of(component: &PricedComponent<'_>, role: Role, slot: u8) -> Move
    ensures { result ≡ record { flights = component.now.path.now.flights; carrier = component.now.key.now.carrier; basis = component.now.key.now.basis; role = role; slot = slot } }
{
    Move {
        flights: component.path.flights.copied(),
        carrier: component.key.carrier,
        basis: component.key.basis.copied(),
        role,
        slot,
    }
}
