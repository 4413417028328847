//! The moves of a residual on one path: with the fares that are filed forward, and those in reverse.
ghost use Rattle.std.specs.Prelude.{◌≡◌, ◌≢◌, [], List, OnOk};
ghost use Rattle.std.specs.Arc.{arc_value};
ghost use Rattle.fare_component.specs.Keys.{Asked, asked};
ghost use Rattle.fare_law.specs.declared.flights.Flight.{Flight as DatedFlight};
ghost use Rattle.fare_law.specs.declared.market.OfferKey.{OfferKey as Key};
ghost use Rattle.fare_law.specs.Limits.{IsFare, IsRequest};
ghost use Rattle.fare_law.specs.RuleLimits.{IsRule};
ghost use Rattle.fare_law.specs.Sheets.{SheetOf};
ghost use Rattle.residual_keys.specs.AskedKeys.{IsKey, KeyOfFlights};
ghost use Rattle.residual_keys.specs.Gathered.{Adds, IsChosenFiled, IsChosenOn, IsChosenWith, IsOfferedOver, IsPathOf, OffersOn};
ghost use Rattle.residual_keys.specs.Steps.{MarketOver};
ghost use Rattle.residual_keys.specs.WaysOf.{IsWayOf};

use crate::choices::add_choices;
use crate::component::{facts_over, first_of, last_of};
use crate::open_units::OpenUnits;
use crate::priced::PricedComponent;
use crate::way::Way;
use crate::{Chosen, Residual};
use fare_book::Book;
use fare_component::{Offer, OfferSource};
use fare_law::{List, MarketSheet, Mem, OfferKey, Place, Request, SheetRow};
use flight_paths::Path;
use std::alloc::Global;
use std::sync::Arc;
use ticket_order::order_laws;

/// Adds the moves on a path, and has the source settle what the keys of its flights ask for.
pub fn add_path<O: OfferSource>(
    alloc: Global,
    found: &mut List<Chosen>,
    book: &Book,
    request: &Request,
    residual: &Residual,
    path: &Path,
    offers: &mut O,
) -> Result<(), Mem>
    requires request { IsRequest request.now }
    requires path { (fs : List DatedFlight) × IsPathOf book.now request.now residual.now path.now fs }
    ensures moves { OnOk result (Adds (IsChosenOn book.now request.now residual.now path.now.flights) found.old found.new) }
    ensures base { O.base offers.new ≡ O.base offers.old }
    ensures stays { (a : Asked) → O.settled offers.old a → O.settled offers.new a }
    ensures asked { OnOk result ((fs : List DatedFlight) → IsPathOf book.now request.now residual.now path.now fs → (key : Key) → KeyOfFlights book.now request.now residual.now fs key → O.settled offers.new (asked key)) }
{
    let way = Way::of(book, request, path);
    add_way(alloc, found, book, request, residual, &way, offers)?;
    Ok(())
}

/// Adds the moves on a way.
fn add_way<O: OfferSource>(
    alloc: Global,
    found: &mut List<Chosen>,
    book: &Book,
    request: &Request,
    residual: &Residual,
    way: &Way,
    offers: &mut O,
) -> Result<(), Mem>
    requires request { IsRequest request.now }
    requires way { IsWayOf book.now request.now residual.now way.now }
    ensures moves { OnOk result (Adds (IsChosenOn book.now request.now residual.now way.now.path.flights) found.old found.new) }
    ensures base { O.base offers.new ≡ O.base offers.old }
    ensures stays { (a : Asked) → O.settled offers.old a → O.settled offers.new a }
    ensures asked { OnOk result ((key : Key) → KeyOfFlights book.now request.now residual.now way.now.flights key → O.settled offers.new (asked key)) }
{
    let there = Market::of(way, false);
    add_market(alloc, found, book, request, residual, way, there, offers)?;
    if OpenUnits::of(residual).is_empty() {
        return Ok(());
    }
    let back = Market::of(way, true);
    add_market(alloc, found, book, request, residual, way, back, offers)?;
    Ok(())
}

/// The market in which the fares of a component are filed: from its beginning to its end, or in reverse.
#[derive(Clone, Copy)]
struct Market {
    from: Place,
    to: Place,
    reverse: bool,
}

impl Market {
    fn of(way: &Way, reverse: bool) -> Market
        requires { way.now.flights ≢ [] }
        ensures reverse { result.reverse ≡ reverse }
        ensures market { MarketOver reverse way.now.flights result.from result.to }
    {
        let begin = first_of(way.flights.as_slice()).from;
        let end = last_of(way.flights.as_slice()).to;
        if reverse {
            Market {
                from: end,
                to: begin,
                reverse,
            }
        } else {
            Market {
                from: begin,
                to: end,
                reverse,
            }
        }
    }
}

/// Adds the moves on a way with the fares of a market.
fn add_market<O: OfferSource>(
    alloc: Global,
    found: &mut List<Chosen>,
    book: &Book,
    request: &Request,
    residual: &Residual,
    way: &Way,
    market: Market,
    offers: &mut O,
) -> Result<(), Mem>
    requires request { IsRequest request.now }
    requires way { IsWayOf book.now request.now residual.now way.now }
    requires market { MarketOver market.reverse way.now.flights market.from market.to }
    ensures moves { OnOk result (Adds (IsChosenFiled book.now request.now residual.now way.now.path.flights market.reverse) found.old found.new) }
    ensures base { O.base offers.new ≡ O.base offers.old }
    ensures stays { (a : Asked) → O.settled offers.old a → O.settled offers.new a }
    ensures asked { OnOk result ((key : Key) → IsKey book.now request.now way.now.flights market.from market.to key → O.settled offers.new (asked key)) }
{
    order_laws();
    match book.sheet(market.from, market.to) {
        Some(sheet) => {
            let reverse = market.reverse;
            add_sheet(
                alloc, found, book, request, residual, way, sheet, reverse, offers,
            )?;
            Ok(())
        }
        None => Ok(()),
    }
}

/// Adds the moves on a way with the fares of a market's sheet, which are filed from its beginning to its
/// end, or in reverse.
fn add_sheet<O: OfferSource>(
    alloc: Global,
    found: &mut List<Chosen>,
    book: &Book,
    request: &Request,
    residual: &Residual,
    way: &Way,
    sheet: &Arc<MarketSheet>,
    reverse: bool,
    offers: &mut O,
) -> Result<(), Mem>
    requires request { IsRequest request.now }
    requires way { IsWayOf book.now request.now residual.now way.now }
    requires market { MarketOver reverse way.now.flights (arc_value sheet.now).from (arc_value sheet.now).to }
    requires sheet { SheetOf book.now (arc_value sheet.now).from (arc_value sheet.now).to (arc_value sheet.now) }
    ensures moves { OnOk result (Adds (IsChosenFiled book.now request.now residual.now way.now.path.flights reverse) found.old found.new) }
    ensures base { O.base offers.new ≡ O.base offers.old }
    ensures stays { (a : Asked) → O.settled offers.old a → O.settled offers.new a }
    ensures asked { OnOk result (O.settled offers.new (record { legs = way.now.legs; sheet = arc_value sheet.now })) }
{
    order_laws();
    book.limits();
    let key = OfferKey {
        legs: way.legs.copied(),
        sheet: Arc::try_clone(sheet)?,
    };
    let offered = offers.take(alloc, key)?;
    let offered = offered.rows.as_slice();
    add_offers(found, book, request, residual, way, sheet, offered, reverse)?;
    Ok(())
}

/// Adds the moves on a way with the fares of a sheet, of which these are offered there.
fn add_offers(
    found: &mut List<Chosen>,
    book: &Book,
    request: &Request,
    residual: &Residual,
    way: &Way,
    sheet: &MarketSheet,
    offered: &[Offer],
    reverse: bool,
) -> Result<(), Mem>
    requires request { IsRequest request.now }
    requires way { IsWayOf book.now request.now residual.now way.now }
    requires market { MarketOver reverse way.now.flights sheet.now.from sheet.now.to }
    requires sheet { SheetOf book.now sheet.now.from sheet.now.to sheet.now }
    requires offered { OffersOn way.now.legs sheet.now.rows offered.now }
    ensures { OnOk result (Adds (IsChosenFiled book.now request.now residual.now way.now.path.flights reverse) found.old found.new) }
{
    order_laws();
    book.limits();
    let rows = sheet.rows.as_slice();
    for offer in offered {
        let row = &rows[offer.place as usize];
        let price = offer.price;
        add_offer(found, book, request, residual, way, row, price, reverse)?;
    }
    Ok(())
}

/// Adds the moves on a way with the fare of one row, which is offered there at this price.
fn add_offer(
    found: &mut List<Chosen>,
    book: &Book,
    request: &Request,
    residual: &Residual,
    way: &Way,
    row: &SheetRow,
    price: u64,
    reverse: bool,
) -> Result<(), Mem>
    requires request { IsRequest request.now }
    requires way { IsWayOf book.now request.now residual.now way.now }
    requires row { IsOfferedOver book.now reverse way.now.flights way.now.legs row.now price }
    requires fare { IsFare row.now.fare }
    requires rule { IsRule row.now.rule }
    ensures { OnOk result (Adds (IsChosenWith book.now request.now residual.now way.now.path.flights reverse row.now) found.old found.new) }
{
    let component = PricedComponent {
        path: &way.path,
        facts: facts_over(way.flights.as_slice(), row, reverse, request.sale),
        key: &row.fare.key,
        price,
    };
    add_choices(found, residual, &component)?;
    Ok(())
}
