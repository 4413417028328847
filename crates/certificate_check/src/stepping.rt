//! Where a move leads, and what it costs.
ghost use Rattle.std.specs.Prelude.{◌≡◌, ◌≤◌, ◌-◌, IfNone, IfSome, length};
ghost use Rattle.std.specs.Option.{option_copied};
ghost use Rattle.certificate_check.specs.Fronts.{Priced, component_of as component_by, flight_of};
ghost use Rattle.fare_law.specs.Limits.{IsRequest};
ghost use Rattle.residual_keys.specs.declared.residual.Next.TheVariants.{At};
ghost use Rattle.residual_keys.specs.Residuals.{State};
ghost use Rattle.residual_keys.specs.Steps.{StepsTo};
ghost use Rattle.search_steps.specs.Leads.{state_of};

use fare_book::Book;
use fare_law::{Component, FareKey, Flight, Move, Place, Request, Role};
use residual_keys::{Next, Residual, step};
use ticket_whole::component_price;

/// What a move leaves that doesn't end the journey. None exactly where it is no such move of the residual.
pub fn goes_on(book: &Book, request: &Request, residual: &Residual, mv: &Move) -> Option<Residual>
    requires { IsRequest request.now }
    ensures some { IfSome result (λ after. StepsTo book.now request.now residual.now mv.now (At after)) }
    ensures none { IfNone result ((after : State) → StepsTo book.now request.now residual.now mv.now (At after) → ⊥) }
{
    let next = step(book, request, residual, mv)?;
    residual_in(&next)
}

/// The residual that is left. None at the end of the journey.
fn residual_in(next: &Next) -> Option<Residual>
    ensures { result ≡ state_of next.now }
{
    match *next {
        Next::At(residual) => Some(residual),
        Next::Done => None,
    }
}

/// What a move of some residual costs.
pub fn move_price(book: &Book, mv: &Move) -> Option<u64>
    ensures value { Priced book.now mv.now result }
    ensures low { IfSome result (λ price. price ≤ 1035000000) }
{
    let first = first_flight(book, mv)?;
    let last = last_flight(book, mv)?;
    component_price(&component_of(mv, first, last), book)
}

/// The first flight of a move.
fn first_flight<'b>(book: &'b Book, mv: &Move) -> Option<&'b Flight>
    ensures { option_copied result ≡ flight_of book.now mv.now 0 }
{
    let number = mv.flights.as_slice().first()?;
    book.timetable().schedule().flights().get(*number as usize)
}

/// The last flight of a move.
fn last_flight<'b>(book: &'b Book, mv: &Move) -> Option<&'b Flight>
    ensures { option_copied result ≡ flight_of book.now mv.now (length mv.now.flights - 1) }
{
    let number = mv.flights.as_slice().last()?;
    book.timetable().schedule().flights().get(*number as usize)
}

/// The component of a move, by its first flight and its last.
fn component_of(mv: &Move, first: &Flight, last: &Flight) -> Component
    ensures { result ≡ component_by mv.now first.now last.now }
{
    match mv.role {
        Role::Closes => component_between(mv, last.to, first.from),
        Role::Alone | Role::Opens | Role::GoesOn => component_between(mv, first.from, last.to),
    }
}

/// The component of a move whose fare is filed between these places.
fn component_between(mv: &Move, from: Place, to: Place) -> Component
    ensures { result ≡ record { flights = mv.now.flights; fare = record { carrier = mv.now.carrier; from = from; to = to; basis = mv.now.basis }; unit = 0 } }
{
    Component {
        flights: mv.flights.copied(),
        fare: FareKey {
            carrier: mv.carrier,
            from,
            to,
            basis: mv.basis.copied(),
        },
        unit: 0,
    }
}
