//! The keys of residuals on which there may be offers, taken from a source so that it settles them.
ghost use Rattle.std.specs.Prelude.{◌≡◌, ◌<◌, ◌≤◌, OnOk, length};
ghost use Rattle.asked_keys.specs.Asking.{HasKeysSettled, IsFiledKey, IsWay, begun_by, narrowed};
ghost use Rattle.fare_ends.specs.Markets.{AreMarkets, IsMarket};
ghost use Rattle.component_table.specs.Networks.{IsNetwork};
ghost use Rattle.fare_component.specs.Keys.{Asked, asked};
ghost use Rattle.fare_law.specs.declared.market.OfferKey.{OfferKey as OneKey};
ghost use Rattle.fare_law.specs.declared.requests.Request.{Request as Asking};
ghost use Rattle.fare_law.specs.Limits.{IsRequest};
ghost use Rattle.fare_law.specs.Lists.{Each};
ghost use Rattle.residual_keys.specs.AskedKeys.{IsKey, KeyOfFlights};
ghost use Rattle.residual_keys.specs.Steps.{MarketOver};
ghost use Rattle.residual_keys.specs.WaysOf.{IsWayOf};

use crate::homes::home_over;
use crate::offered::may_be_offered;
use crate::served::{schedule_of, served_paths};
use component_table::{Market, MarketKey, Markets, Network};
use fare_book::Book;
use fare_component::OfferSource;
use fare_law::{Flight, Mem, OfferKey, Request};
use flight_paths::Position;
use residual_keys::{OpenUnits, Residual, Way, first_of, last_of};
use std::alloc::Global;
use std::sync::Arc;
use ticket_order::order_laws;

/// Has a source settle whatever the keys of residuals ask for. What has no offers is settled as it is, so only keys that
/// may have some are taken.
pub fn settle_keys<O: OfferSource>(
    alloc: Global,
    book: &Book,
    request: &Request,
    residuals: &[Residual],
    offers: &mut O,
) -> Result<(), Mem>
    requires { IsRequest request.now }
    ensures settled { OnOk result (Each (HasKeysSettled book.now request.now (O.settled offers.new)) residuals.now) }
    ensures base { O.base offers.new ≡ O.base offers.old }
    ensures stays { (a : Asked) → O.settled offers.old a → O.settled offers.new a }
{
    let mut network = Network::new(alloc);
    for residual in residuals {
        take_all(alloc, book, request, &mut network, residual, offers)?;
    }
    Ok(())
}

/// Takes the keys of a residual, by one first flight after another, so that only the paths of one are listed at a time.
fn take_all<O: OfferSource>(
    alloc: Global,
    book: &Book,
    request: &Request,
    network: &mut Network,
    residual: &Residual,
    offers: &mut O,
) -> Result<(), Mem>
    requires request { IsRequest request.now }
    requires network { IsNetwork book.now request.now network.old }
    ensures network { IsNetwork book.now request.now network.new }
    ensures settled { OnOk result (HasKeysSettled book.now request.now (O.settled offers.new) residual.now) }
    ensures base { O.base offers.new ≡ O.base offers.old }
    ensures stays { (a : Asked) → O.settled offers.old a → O.settled offers.new a }
{
    for number in schedule_of(book).from_place(residual.at.place, residual.at.lo, residual.at.hi) {
        let one = begun_by(residual, *number);
        take_keys(alloc, book, request, network, &one, offers)?;
    }
    Ok(())
}

/// The residual from where the flight of this number alone leads on.
fn begun_by(residual: &Residual, number: u32) -> Residual
    requires { number < residual.now.at.hi }
    ensures { result ≡ begun_by residual.now number }
{
    Residual {
        at: narrowed(&residual.at, number),
        ..*residual
    }
}

/// The position from where the flight of this number alone leads on.
fn narrowed(at: &Position, number: u32) -> Position
    requires { number < at.now.hi }
    ensures { result ≡ narrowed at.now number }
{
    Position {
        slice: at.slice,
        leg: at.leg,
        place: at.place,
        via: at.via,
        lo: number,
        hi: number + 1,
    }
}

/// Takes the keys of a residual, path by path.
fn take_keys<O: OfferSource>(
    alloc: Global,
    book: &Book,
    request: &Request,
    network: &mut Network,
    residual: &Residual,
    offers: &mut O,
) -> Result<(), Mem>
    requires request { IsRequest request.now }
    requires network { IsNetwork book.now request.now network.old }
    ensures network { IsNetwork book.now request.now network.new }
    ensures settled { OnOk result (HasKeysSettled book.now request.now (O.settled offers.new) residual.now) }
    ensures base { O.base offers.new ≡ O.base offers.old }
    ensures stays { (a : Asked) → O.settled offers.old a → O.settled offers.new a }
{
    if usize::from(residual.at.slice) >= request.slices.len() {
        return Ok(());
    }
    let paths = served_paths(alloc, book, request, network, &residual.at)?;
    for path in paths.as_slice() {
        if offers.settles_home(home_over(book, path)) {
            continue;
        }
        let way = Way::of(book, request, path);
        take_way(alloc, book, &mut network.markets, residual, &way, offers)?;
    }
    Ok(())
}

/// Takes the keys of a way: with the fares that are filed from its beginning to its end, and, where a unit is open,
/// with those in reverse.
fn take_way<O: OfferSource>(
    alloc: Global,
    book: &Book,
    markets: &mut Markets,
    residual: &Residual,
    way: &Way,
    offers: &mut O,
) -> Result<(), Mem>
    requires markets { AreMarkets book.now markets.old.kept.items }
    requires way { (q : Asking) × IsWayOf book.now q residual.now way.now }
    ensures markets { AreMarkets book.now markets.new.kept.items }
    ensures settled { OnOk result ((q : Asking) → IsWayOf book.now q residual.now way.now → (key : OneKey) → KeyOfFlights book.now q residual.now way.now.flights key → O.settled offers.new (asked key)) }
    ensures base { O.base offers.new ≡ O.base offers.old }
    ensures stays { (a : Asked) → O.settled offers.old a → O.settled offers.new a }
{
    take_filed(alloc, book, markets, way, false, offers)?;
    if OpenUnits::of(residual).is_empty() {
        return Ok(());
    }
    take_filed(alloc, book, markets, way, true, offers)
}

/// Takes the key of a way with the fares that are filed over it this way, if there are any.
fn take_filed<O: OfferSource>(
    alloc: Global,
    book: &Book,
    markets: &mut Markets,
    way: &Way,
    reverse: bool,
    offers: &mut O,
) -> Result<(), Mem>
    requires markets { AreMarkets book.now markets.old.kept.items }
    requires way { (q : Asking) × IsWay book.now q way.now }
    ensures markets { AreMarkets book.now markets.new.kept.items }
    ensures settled { OnOk result ((q : Asking) → IsWay book.now q way.now → (key : OneKey) → IsFiledKey book.now q way.now.flights reverse key → O.settled offers.new (asked key)) }
    ensures base { O.base offers.new ≡ O.base offers.old }
    ensures stays { (a : Asked) → O.settled offers.old a → O.settled offers.new a }
{
    let ends = market_over(way.flights.as_slice(), reverse);
    let Some(at) = markets.find(alloc, book, ends)? else {
        return Ok(());
    };
    take_offered(alloc, book, &markets.kept[at], way, offers)
}

/// The ends of the market whose fares are filed over these flights, this way.
fn market_over(flights: &[Flight], reverse: bool) -> MarketKey
    requires { 1 ≤ length flights.now }
    ensures { MarketOver reverse flights.now result.from result.to }
{
    let begin = first_of(flights).from;
    let end = last_of(flights).to;
    if reverse {
        MarketKey {
            from: end,
            to: begin,
        }
    } else {
        MarketKey {
            from: begin,
            to: end,
        }
    }
}

/// Takes the key of a way with the sheet of a market, if it may have offers.
fn take_offered<O: OfferSource>(
    alloc: Global,
    book: &Book,
    market: &Market,
    way: &Way,
    offers: &mut O,
) -> Result<(), Mem>
    requires market { IsMarket book.now market.now }
    requires way { (q : Asking) × IsWay book.now q way.now }
    ensures settled { OnOk result ((q : Asking) → IsWay book.now q way.now → (key : OneKey) → IsKey book.now q way.now.flights market.now.sheet.value.from market.now.sheet.value.to key → O.settled offers.new (asked key)) }
    ensures base { O.base offers.new ≡ O.base offers.old }
    ensures stays { (a : Asked) → O.settled offers.old a → O.settled offers.new a }
{
    order_laws();
    book.limits();
    if !may_be_offered(book, market, way) {
        return Ok(());
    }
    let key = OfferKey {
        legs: way.legs.copied(),
        sheet: Arc::try_clone(&market.sheet)?,
    };
    offers.take(alloc, key)?;
    Ok(())
}
