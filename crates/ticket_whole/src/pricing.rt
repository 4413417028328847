//! What a ticket costs.
ghost use Rattle.std.specs.Prelude.{◌≡◌, ◌≤◌, ℕ, Any, Some, IfSome, MatchOption};
ghost use Rattle.fare_law.specs.Best.{Costs};
ghost use Rattle.fare_law.specs.Parts as Parts;
ghost use Rattle.fare_law.specs.Parts.{IsPart, Part};
ghost use Rattle.fare_law.specs.declared.requests.Request.{Request};
ghost use Rattle.ticket_whole.specs.Prices.{ComponentCosts, HasNoPrice, TicketCosts};

use crate::component_flights::{flights_of, has_unknown_flight};
use fare_book::Book;
use fare_law::{Component, Ticket};
use fare_rules::{charge, limits_are_met, share, surcharge};

/// The price of a ticket for one passenger, lawful or not: what its components cost. None exactly
/// where a component has no flight, one that is unknown, or a fare that isn't live.
pub fn price(ticket: &Ticket, book: &Book) -> Option<u64>
    ensures sum { MatchOption result (Any (HasNoPrice book.now) ticket.now.components) (TicketCosts book.now ticket.now) }
    ensures costs { (request : Request) (price : ℕ) → Costs ticket.now book.now request price → result ≡ Some price }
{
    let mut sum = 0;
    for component in ticket.components.as_slice() {
        sum += component_price(component, book)?;
    }
    Some(sum)
}

/// The price of a component for one passenger, lawful or not: its fare, or half of it for a round trip
/// fare, the charge for its stopovers and its surcharges. None exactly where it has no flight, one that
/// is unknown, or a fare that isn't live.
pub fn component_price(component: &Component, book: &Book) -> Option<u64>
    ensures value { MatchOption result (HasNoPrice book.now component.now) (ComponentCosts book.now component.now) }
    ensures part { (request : Request) (part : Part) → IsPart book.now request component.now part → result ≡ Some (Parts.price_of part.flights part.piece) }
    ensures low { IfSome result (λ price. price ≤ 1035000000) }
{
    if component.flights.len() == 0 || has_unknown_flight(component, book) {
        return None;
    }
    book.limits();
    limits_are_met();
    let row = book.fare(&component.fare)?;
    let flights = flights_of(component, book);
    let flights = flights.as_slice();
    Some(share(&row.fare) + charge(&row.rule, flights) + surcharge(&row.rule, flights))
}
