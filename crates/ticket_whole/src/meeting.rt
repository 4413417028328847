//! Whether a ticket meets a demand, as a whole and with each component.
ghost use Rattle.std.specs.Prelude.{◌↔◌, ◌≤◌, length, IsTrue, MatchOption, None};
ghost use Rattle.fare_law.specs.Limits.{IsRequest, IsSlice};
ghost use Rattle.fare_law.specs.Lists.{Each};
ghost use Rattle.ticket_whole.specs.Breaches.{FirstBroken, Met, StandingMeets, TicketMeets};
ghost use Rattle.ticket_whole.specs.Breaches as Breaches;
ghost use Rattle.ticket_whole.specs.Cuts.{CutsMeet};

use crate::boundaries::{few_straddle, label_stands, labels_of};
use crate::fares_on::end_on_end_meets;
use crate::known::flights_of;
use crate::{Demand, JourneyDemand, component_meets, cuts_meet, part_meets};
use fare_book::Book;
use fare_law::{Component, MOST_COMPONENTS, Request, Slice, Ticket};

/// The least component, counted from 1, at which the ticket breaks a demand, 0 where it breaks it as
/// a whole. None exactly where it meets it.
pub fn broken_at(demand: Demand, ticket: &Ticket, book: &Book, request: &Request) -> Option<u8>
    requires { IsRequest request.now }
    ensures { MatchOption result (Met book.now request.now ticket.now demand) (FirstBroken book.now request.now ticket.now demand) }
{
    if !ticket_meets(demand, ticket, book, request) {
        return Some(0);
    }
    let components = ticket.components.as_slice();
    for at in 0..components.len() {
        let (before, _) = components.split_at(at);
        if !standing_meets(demand, before, &components[at], ticket, book, request) {
            return Some(at as u8 + 1);
        }
    }
    None
}

/// Whether the ticket meets a demand as a whole.
fn ticket_meets(demand: Demand, ticket: &Ticket, book: &Book, request: &Request) -> bool
    requires { IsRequest request.now }
    ensures { IsTrue result ↔ TicketMeets book.now request.now ticket.now demand }
{
    let components = ticket.components.as_slice();
    match demand {
        Demand::HasComponent => components.len() > 0,
        Demand::OfComponent(_) => true,
        Demand::OfJourney(demand) => {
            journey_meets(demand, request.slices.as_slice(), components, book)
        }
        Demand::Labels => true,
        Demand::OfUnit(_) => true,
        Demand::EndOnEnd => end_on_end_meets(components, book),
        Demand::Straddling => few_straddle(labels_of(components).as_slice()),
    }
}

/// Whether the flights of all components, cut into the slices, meet a demand.
fn journey_meets(
    demand: JourneyDemand,
    slices: &[Slice],
    components: &[Component],
    book: &Book,
) -> bool
    requires few { length components.now ≤ MOST_COMPONENTS }
    requires slices { Each IsSlice slices.now }
    ensures { IsTrue result ↔ CutsMeet book.now demand None slices.now (Breaches.flights_of book.now components.now) }
{
    let flights = flights_of(components, book);
    cuts_meet(demand, slices, flights.as_slice(), book)
}

/// Whether a component of the ticket, which stands after these, meets a demand.
fn standing_meets(
    demand: Demand,
    before: &[Component],
    component: &Component,
    ticket: &Ticket,
    book: &Book,
    request: &Request,
) -> bool
    requires { IsRequest request.now }
    ensures { IsTrue result ↔ StandingMeets book.now request.now ticket.now demand before.now component.now }
{
    match demand {
        Demand::HasComponent => true,
        Demand::OfComponent(demand) => component_meets(demand, component, book, request.party),
        Demand::OfJourney(_) => true,
        Demand::Labels => label_stands(before, component.unit),
        Demand::OfUnit(demand) => part_meets(
            demand,
            component,
            ticket.components.as_slice(),
            book,
            request.sale,
        ),
        Demand::EndOnEnd => true,
        Demand::Straddling => true,
    }
}
