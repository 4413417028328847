//! The moves of a path with the fares of a group.
ghost use Rattle.std.specs.Prelude.{OnOk};
ghost use Rattle.cheap_moves.specs.Making.{IsGroupMove, IsOver};
ghost use Rattle.fare_law.specs.Limits.{IsRequest};
ghost use Rattle.fare_law.specs.Lists.{IsIn};
ghost use Rattle.residual_keys.specs.Gathered.{Adds};

use crate::MoveSearch;
use crate::bounds::ResidualBounds;
use crate::component::{Component, Flown};
use crate::fares::is_within;
use crate::roles::add_component;
use component_table::Market;
use fare_groups::{FareGroup, extra, first_row};
use fare_law::{List, MarketSheet, Mem, SheetRow};
use fare_rules::limits_are_met;
use residual_keys::{Chosen, facts_over};

/// Adds the moves on a path with the fares of a group, within the limit. There are none where the group's
/// rule doesn't permit the flights.
pub fn add_group<B: ResidualBounds>(
    found: &mut List<Chosen>,
    search: &MoveSearch<'_, B>,
    flown: &Flown,
    reverse: bool,
    market: &Market,
    group: &FareGroup,
) -> Result<(), Mem>
    requires request { IsRequest search.now.request.now }
    requires over { IsOver search.now.book.now search.now.request.now search.now.residual.now flown.now reverse market.now }
    requires group { IsIn group.now market.now.groups }
    ensures { OnOk result (Adds (IsGroupMove search.now.request.now search.now.residual.now (B.bound search.now.bounds.now) search.now.limit flown.now reverse market.now group.now) found.old found.new) }
{
    search.book.limits();
    limits_are_met();
    let Some(share) = group.cheapest(flown.classes) else {
        return Ok(());
    };
    if !is_within(search.limit, u128::from(share)) {
        return Ok(());
    }
    let sheet: &MarketSheet = &market.sheet;
    let row = first_row(sheet, group);
    let flights = flown.way.flights.as_slice();
    let Some(charges) = extra(&row.rule, group.key.carrier, flights) else {
        return Ok(());
    };
    let facts = facts_over(flights, row, reverse, search.request.sale);
    let component = Component {
        flown,
        market,
        group,
        facts,
        charges,
    };
    add_component(found, search, &component)
}
