//! The moves of a component, fare by fare.
ghost use Rattle.std.specs.Prelude.{◌≡◌, ◌↔◌, ◌+◌, ◌≤◌, IfNone, IfSome, IsTrue, OnOk, Some, slice_get};
ghost use Rattle.cheap_moves.specs.Making.{IsComponent, IsFareMove, Of};
ghost use Rattle.cheap_moves.specs.Within.{IsWithin};
ghost use Rattle.fare_law.specs.Lists.{IsIn};
ghost use Rattle.residual_keys.specs.Gathered.{Adds};

use crate::MoveSearch;
use crate::component::{Component, Onward};
use fare_groups::{GroupedFare, is_open};
use fare_law::{List, MarketSheet, Mem, Move, SheetRow};
use residual_keys::Chosen;
use ticket_order::order_laws;

/// Adds the moves of a group's fares that go on like this, within the limit. Its fares come in the order of their shares, so
/// none is within it after one that isn't.
pub fn add_fares<B>(
    found: &mut List<Chosen>,
    search: &MoveSearch<'_, B>,
    component: &Component<'_>,
    onward: &Onward,
) -> Result<(), Mem>
    requires { IsComponent search.now.book.now search.now.request.now search.now.residual.now component.now }
    ensures { OnOk result (Adds (Of (IsFareMove component.now search.now.limit onward.now) component.now.group.now.fares) found.old found.new) }
{
    order_laws();
    for fare in component.group.fares.as_slice() {
        let Some(price) = price_within(search, component, onward, fare) else {
            return Ok(());
        };
        add_fare(found, search, component, onward, fare, price)?;
    }
    Ok(())
}

/// What a component with a fare costs. None where the moves that go on like this are beyond the limit.
fn price_within<B>(
    search: &MoveSearch<'_, B>,
    component: &Component<'_>,
    onward: &Onward,
    fare: &GroupedFare,
) -> Option<u64>
    requires component { IsComponent search.now.book.now search.now.request.now search.now.residual.now component.now }
    requires fare { IsIn fare.now component.now.group.now.fares }
    ensures some { IfSome result (λ price. (price ≡ fare.now.share + component.now.charges) × IsWithin search.now.limit ((fare.now.share + component.now.charges) + onward.now.rest)) }
    ensures none { IfNone result (IsWithin search.now.limit ((fare.now.share + component.now.charges) + onward.now.rest) → ⊥) }
{
    search.book.limits();
    let price = sum(fare.share, component.charges);
    if is_within(search.limit, u128::from(price) + u128::from(onward.rest)) {
        Some(price)
    } else {
        None
    }
}

/// Adds the move of a fare that goes on like this, at this price, where its class is open.
fn add_fare<B>(
    found: &mut List<Chosen>,
    search: &MoveSearch<'_, B>,
    component: &Component<'_>,
    onward: &Onward,
    fare: &GroupedFare,
    price: u64,
) -> Result<(), Mem>
    requires component { IsComponent search.now.book.now search.now.request.now search.now.residual.now component.now }
    requires fare { IsIn fare.now component.now.group.now.fares }
    requires price { price ≡ fare.now.share + component.now.charges }
    requires within { IsWithin search.now.limit ((fare.now.share + component.now.charges) + onward.now.rest) }
    ensures { OnOk result (Adds (IsFareMove component.now search.now.limit onward.now fare.now) found.old found.new) }
{
    search.book.limits();
    if !is_open(component.flown.classes, fare.class) {
        return Ok(());
    }
    let sheet: &MarketSheet = &component.market.sheet;
    let row = &sheet.rows.as_slice()[fare.place as usize];
    found.push(Chosen {
        mv: move_of(component, onward, row),
        price,
        next: onward.next,
    })
}

/// The move of a component with the fare of a row.
fn move_of(component: &Component<'_>, onward: &Onward, row: &SheetRow) -> Move
    ensures { result ≡ record { flights = component.now.flown.now.way.path.flights; carrier = row.now.fare.key.carrier; basis = row.now.fare.key.basis; role = onward.now.role; slot = onward.now.slot } }
{
    Move {
        flights: component.flown.way.path.flights.copied(),
        carrier: row.fare.key.carrier,
        basis: row.fare.key.basis.copied(),
        role: onward.role,
        slot: onward.slot,
    }
}

/// A share with the charges of a rule.
fn sum(share: u64, charges: u64) -> u64
    requires share { share ≤ 1000000000 }
    requires charges { charges ≤ 35000000 }
    ensures { result ≡ share + charges }
{
    share + charges
}

/// Whether a total is at most the limit, if there is one.
pub fn is_within(limit: Option<u128>, total: u128) -> bool
    ensures { IsTrue result ↔ IsWithin limit total }
{
    match limit {
        Some(limit) => total <= limit,
        None => true,
    }
}
