//! The moves of a component, role by role.
ghost use Rattle.std.specs.Prelude.{◌≡◌, false, true, OnOk};
ghost use Rattle.cheap_moves.specs.Making.{IsComponent, IsComponentMove, IsRoleMove};
ghost use Rattle.residual_keys.specs.Gathered.{Adds};

use crate::MoveSearch;
use crate::bounds::{ResidualBounds, rest_after};
use crate::component::{Component, Onward};
use crate::fares::add_fares;
use fare_law::{List, Mem, Role};
use residual_keys::{Chosen, next_after};

/// Adds the moves of a component that are within the limit, in whatever role and slot it may have.
pub fn add_component<B: ResidualBounds>(
    found: &mut List<Chosen>,
    search: &MoveSearch<'_, B>,
    component: &Component<'_>,
) -> Result<(), Mem>
    requires { IsComponent search.now.book.now search.now.request.now search.now.residual.now component.now }
    ensures { OnOk result (Adds (IsComponentMove search.now.residual.now (B.bound search.now.bounds.now) search.now.limit component.now) found.old found.new) }
{
    let facts = &component.facts;
    if facts.reverse {
        add_closing(found, search, component)
    } else {
        add_forward(found, search, component)
    }
}

/// Adds the moves of a component whose fare is filed in reverse.
fn add_closing<B: ResidualBounds>(
    found: &mut List<Chosen>,
    search: &MoveSearch<'_, B>,
    component: &Component<'_>,
) -> Result<(), Mem>
    requires component { IsComponent search.now.book.now search.now.request.now search.now.residual.now component.now }
    requires reverse { component.now.facts.reverse ≡ true }
    ensures { OnOk result (Adds (IsComponentMove search.now.residual.now (B.bound search.now.bounds.now) search.now.limit component.now) found.old found.new) }
{
    search.residual.keeps();
    add_role(found, search, component, Role::Closes, 0)?;
    add_role(found, search, component, Role::Closes, 1)
}

/// Adds the moves of a component whose fare is filed forward.
fn add_forward<B: ResidualBounds>(
    found: &mut List<Chosen>,
    search: &MoveSearch<'_, B>,
    component: &Component<'_>,
) -> Result<(), Mem>
    requires component { IsComponent search.now.book.now search.now.request.now search.now.residual.now component.now }
    requires forward { component.now.facts.reverse ≡ false }
    ensures { OnOk result (Adds (IsComponentMove search.now.residual.now (B.bound search.now.bounds.now) search.now.limit component.now) found.old found.new) }
{
    search.residual.keeps();
    add_role(found, search, component, Role::Alone, 0)?;
    add_role(found, search, component, Role::Opens, 0)?;
    add_role(found, search, component, Role::GoesOn, 0)?;
    add_role(found, search, component, Role::GoesOn, 1)
}

/// Adds the moves of a component that are within the limit, in one role and slot.
fn add_role<B: ResidualBounds>(
    found: &mut List<Chosen>,
    search: &MoveSearch<'_, B>,
    component: &Component<'_>,
    role: Role,
    slot: u8,
) -> Result<(), Mem>
    requires { IsComponent search.now.book.now search.now.request.now search.now.residual.now component.now }
    ensures { OnOk result (Adds (IsRoleMove search.now.residual.now (B.bound search.now.bounds.now) search.now.limit component.now role slot) found.old found.new) }
{
    let after = component.flown.way.path.after;
    let Some(next) = next_after(search.residual, after, &component.facts, role, slot) else {
        return Ok(());
    };
    let Some(rest) = rest_after(search.bounds, &next) else {
        return Ok(());
    };
    let onward = Onward {
        role,
        slot,
        next,
        rest,
    };
    add_fares(found, search, component, &onward)
}
