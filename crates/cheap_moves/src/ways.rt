//! The moves of a path: with the fares that are filed from its beginning to its end, and those in reverse.
ghost use Rattle.std.specs.Prelude.{◌≡◌, ◌≢◌, [], IfNone, IfOk, IfSome, IsTrue, OnOk};
ghost use Rattle.cheap_moves.specs.Hopes.{AreHopes};
ghost use Rattle.cheap_moves.specs.Making.{IsFlown, IsOver, IsWithinFiled, IsWithinOn};
ghost use Rattle.cheap_moves.specs.Prospects.{HasProspects};
ghost use Rattle.fare_ends.specs.Markets.{AreMarkets};
ghost use Rattle.fare_groups.specs.Grouping.{AreInOrder, HasKeyAt};
ghost use Rattle.fare_law.specs.declared.flights.Flight.{Flight as DatedFlight};
ghost use Rattle.std.specs.Prelude.{List as Items};
ghost use Rattle.fare_law.specs.Limits.{IsRequest};
ghost use Rattle.fare_law.specs.Lists.{Each};
ghost use Rattle.residual_keys.specs.Gathered.{Adds, IsPathOf};
ghost use Rattle.residual_keys.specs.Steps.{MarketOver};

use crate::MoveSearch;
use crate::bounds::ResidualBounds;
use crate::component::Flown;
use crate::groups::add_group;
use crate::hopes::{Hopes, PathClass, PathStart, class_over, groups_of};
use crate::prospects::Prospect;
use component_table::{Market, MarketKey, Markets};
use fare_groups::{FareGroup, GroupKey, classes_of_all, place_of};
use fare_law::{Flight, List, Mem, Place};
use flight_paths::Path;
use residual_keys::{Chosen, OpenUnits, Way, first_of, last_of};
use std::alloc::Global;
use ticket_order::order_laws;

/// Adds the moves on a path that are within the limit.
pub fn add_path<B: ResidualBounds>(
    alloc: Global,
    found: &mut List<Chosen>,
    search: &MoveSearch<'_, B>,
    hopes: &Hopes,
    markets: &mut Markets,
    path: &Path,
) -> Result<(), Mem>
    requires request { IsRequest search.now.request.now }
    requires hopes { AreHopes ⟦<PathStart as PartialEq>⟧.eq ⟦<Place as PartialEq>⟧.eq ⟦<PathClass as PartialEq>⟧.eq search.now.book.now search.now.request.now search.now.residual.now (B.bound search.now.bounds.now) search.now.limit hopes.now }
    requires markets { AreMarkets search.now.book.now markets.old.kept.items }
    requires path { (fs : Items DatedFlight) × IsPathOf search.now.book.now search.now.request.now search.now.residual.now path.now fs }
    ensures markets { AreMarkets search.now.book.now markets.new.kept.items }
    ensures moves { OnOk result (Adds (IsWithinOn search.now.book.now search.now.request.now search.now.residual.now (B.bound search.now.bounds.now) search.now.limit path.now) found.old found.new) }
{
    let Some(class) = class_over(search.book, path) else {
        return Ok(());
    };
    let groups = groups_of(hopes, &class);
    if groups.is_empty() {
        return Ok(());
    }
    let prospects = copied(alloc, groups)?;
    let way = Way::of(search.book, search.request, path);
    let classes = classes_of_all(way.legs.as_slice());
    let flown = Flown {
        way,
        classes,
        prospects,
    };
    add_way(alloc, found, search, markets, &flown, false)?;
    if OpenUnits::of(search.residual).is_empty() {
        return Ok(());
    }
    add_way(alloc, found, search, markets, &flown, true)
}

/// The same groups.
fn copied(alloc: Global, groups: &[Prospect]) -> Result<List<Prospect>, Mem>
    ensures { IfOk result (λ ps. ps ≡ groups.now) }
{
    let mut copy = Vec::with_capacity(alloc, groups.len())?;
    for group in groups {
        copy.push(*group)?;
    }
    Ok(List::from_vec(copy))
}

/// Adds the moves on a path that are within the limit, with the fares that are filed from its beginning
/// to its end, or in reverse.
fn add_way<B: ResidualBounds>(
    alloc: Global,
    found: &mut List<Chosen>,
    search: &MoveSearch<'_, B>,
    markets: &mut Markets,
    flown: &Flown,
    reverse: bool,
) -> Result<(), Mem>
    requires request { IsRequest search.now.request.now }
    requires markets { AreMarkets search.now.book.now markets.old.kept.items }
    requires flown { IsFlown search.now.book.now search.now.request.now search.now.residual.now flown.now }
    requires prospects { HasProspects search.now.book.now search.now.request.now search.now.residual.now (B.bound search.now.bounds.now) search.now.limit flown.now.way.path flown.now.prospects }
    ensures markets { AreMarkets search.now.book.now markets.new.kept.items }
    ensures moves { OnOk result (Adds (IsWithinFiled search.now.book.now search.now.request.now search.now.residual.now (B.bound search.now.bounds.now) search.now.limit flown.now.way.path.flights reverse) found.old found.new) }
{
    search.book.limits();
    let key = key_over(flown.way.flights.as_slice(), reverse);
    match markets.find(alloc, search.book, key)? {
        Some(at) => add_market(found, search, flown, reverse, &markets.kept[at]),
        None => Ok(()),
    }
}

/// The market in which fares over these flights are filed: from their beginning to their end, or in reverse.
fn key_over(flights: &[Flight], reverse: bool) -> MarketKey
    requires { flights.now ≢ [] }
    ensures { MarketOver reverse flights.now result.from result.to }
{
    let begin = first_of(flights).from;
    let end = last_of(flights).to;
    if reverse {
        MarketKey {
            from: end,
            to: begin,
        }
    } else {
        MarketKey {
            from: begin,
            to: end,
        }
    }
}

/// Adds the moves on a path that are within the limit, with the fares of a market. Groups come in the order of the market's
/// mostly, so each is looked for right behind the one before it first.
fn add_market<B: ResidualBounds>(
    found: &mut List<Chosen>,
    search: &MoveSearch<'_, B>,
    flown: &Flown,
    reverse: bool,
    market: &Market,
) -> Result<(), Mem>
    requires request { IsRequest search.now.request.now }
    requires over { IsOver search.now.book.now search.now.request.now search.now.residual.now flown.now reverse market.now }
    requires prospects { HasProspects search.now.book.now search.now.request.now search.now.residual.now (B.bound search.now.bounds.now) search.now.limit flown.now.way.path flown.now.prospects }
    ensures { OnOk result (Adds (IsWithinFiled search.now.book.now search.now.request.now search.now.residual.now (B.bound search.now.bounds.now) search.now.limit flown.now.way.path.flights reverse) found.old found.new) }
{
    order_laws();
    let groups = market.groups.as_slice();
    let mut next = 0;
    for prospect in flown.prospects.as_slice() {
        let Some(at) = place_from(groups, prospect, reverse, next) else {
            continue;
        };
        add_group(found, search, flown, reverse, market, &groups[at])?;
        next = at.saturating_add(1);
    }
    Ok(())
}

/// How many kinds of fares a rule may have groups of.
const KINDS: usize = 3;

/// The place of a prospect's group, where it is filed this way and there is such a group. It is looked for among the next ones from
/// a place on first, which is a guess: rules come in order mostly, and a rule has few groups.
fn place_from(
    groups: &[FareGroup],
    prospect: &Prospect,
    reverse: bool,
    guess: usize,
) -> Option<usize>
    requires { AreInOrder groups.now }
    ensures some { IfSome result (λ at. (prospect.now.reverse ≡ reverse) × HasKeyAt prospect.now.key groups.now at) }
    ensures none { IfNone result (prospect.now.reverse ≡ reverse → Each (λ g. g.key ≢ prospect.now.key) groups.now) }
{
    if prospect.reverse != reverse {
        return None;
    }
    for ahead in 0..KINDS {
        let at = guess.saturating_add(ahead);
        if stands_at(groups, at, prospect.key) {
            return Some(at);
        }
    }
    place_of(groups, prospect.key)
}

/// Whether the group at a place has this key.
fn stands_at(groups: &[FareGroup], at: usize, key: GroupKey) -> bool
    ensures { IsTrue result → HasKeyAt key groups.now at }
{
    match groups.get(at) {
        Some(group) => group.key.is(key),
        None => false,
    }
}
