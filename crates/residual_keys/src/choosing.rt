//! All moves of a residual, in the order of their codes.
ghost use Rattle.std.specs.Prelude.{◌≡◌, List, [], map, IfOk, OnOk};
ghost use Rattle.std.specs.List.Sorted.{IsPermutation};
ghost use Rattle.fare_component.specs.Keys.{Asked, asked};
ghost use Rattle.fare_law.specs.declared.flights.Flight.{Flight as DatedFlight};
ghost use Rattle.fare_law.specs.declared.market.OfferKey.{OfferKey as Key};
ghost use Rattle.fare_law.specs.Limits.{IsRequest};
ghost use Rattle.fare_law.specs.Lists.{AllDifferent, Each, EachPair, Less};
ghost use Rattle.fare_law.specs.Codes.{move_code};
ghost use Rattle.residual_keys.specs.AskedKeys.{KeyOf};
ghost use Rattle.residual_keys.specs.Gathered.{Adds};
ghost use Rattle.residual_keys.specs.ResidualText.{IsWritten};
ghost use Rattle.residual_keys.specs.Steps.{AreMoves, IsChosen};
ghost use Rattle.residual_keys.specs.Written.{IsWrittenNext};
ghost use Rattle.ticket_order.specs.Coding.{Coded};

use crate::component::schedule_of;
use crate::gathering::add_path;
use crate::laws::reached_is_written;
use crate::limits::book_limits;
use crate::{Chosen, Residual};
use fare_book::Book;
use fare_component::OfferSource;
use fare_law::{List, Mem, Request};
use flight_paths::component_paths;
use std::alloc::Global;
use ticket_order::{codes_tell, move_code, order_laws};

/// The moves of a residual with their prices and what they leave, each once, ascending by code. After
/// `Ok` whatever the keys of the residual ask for is settled with the source. A residual whose slice
/// isn't one of the request has no move. What is left has a text where the residual has one.
pub fn moves<O: OfferSource>(
    alloc: Global,
    book: &Book,
    request: &Request,
    residual: &Residual,
    offers: &mut O,
) -> Result<List<Chosen>, Mem>
    requires { IsRequest request.now }
    ensures moves { IfOk result (AreMoves book.now request.now residual.now) }
    ensures written { IsWritten residual.now → IfOk result (Each (λ c. IsWrittenNext c.next)) }
    ensures base { O.base offers.new ≡ O.base offers.old }
    ensures stays { (a : Asked) → O.settled offers.old a → O.settled offers.new a }
    ensures asked { OnOk result ((key : Key) → KeyOf book.now request.now residual.now key → O.settled offers.new (asked key)) }
{
    let found = gathered(alloc, book, request, residual, offers)?;
    book_limits(book);
    reached_is_written();
    let mut found = found.into_vec();
    put_in_order(found.as_mut_slice());
    Ok(List::from_vec(found))
}

/// The moves of a residual, path by path.
fn gathered<O: OfferSource>(
    alloc: Global,
    book: &Book,
    request: &Request,
    residual: &Residual,
    offers: &mut O,
) -> Result<List<Chosen>, Mem>
    requires { IsRequest request.now }
    ensures moves { IfOk result (Adds (IsChosen book.now request.now residual.now) []) }
    ensures base { O.base offers.new ≡ O.base offers.old }
    ensures stays { (a : Asked) → O.settled offers.old a → O.settled offers.new a }
    ensures asked { OnOk result ((key : Key) → KeyOf book.now request.now residual.now key → O.settled offers.new (asked key)) }
{
    order_laws();
    let mut found = List::new(alloc);
    if usize::from(residual.at.slice) >= request.slices.len() {
        return Ok(found);
    }
    let paths = component_paths(alloc, schedule_of(book), request, &residual.at)?;
    for path in paths.as_slice() {
        add_path(alloc, &mut found, book, request, residual, path, offers)?;
    }
    Ok(found)
}

/// Puts moves that differ into the order of their codes.
fn put_in_order(found: &mut [Chosen])
    requires once { AllDifferent (map (λ c. c.mv) found.old) }
    requires coded { Each (λ c. Coded c.mv) found.old }
    ensures order { EachPair (λ c d. Less (move_code c.mv) (move_code d.mv)) found.new }
    ensures same { IsPermutation found.old found.new }
{
    codes_tell();
    order_laws();
    found.sort_unstable_by_key(|chosen| move_code(&chosen.mv));
}
