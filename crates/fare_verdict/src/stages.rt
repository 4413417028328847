//! Which demands are tested.
ghost use Rattle.std.specs.Prelude.{◌↔◌, IsTrue};
ghost use Rattle.fare_law.specs.Limits.{IsRequest};
ghost use Rattle.fare_law.specs.declared.requests.Request.{Request as RequestData};
ghost use Rattle.fare_law.specs.declared.tickets.Ticket.{Ticket as TicketData};
ghost use Rattle.fare_law.specs.Book.{Book as BookData};
ghost use Rattle.ticket_whole.specs.Breaches.{Met};
ghost use Rattle.ticket_whole.specs.declared.demand.Demand.TheVariants.{OfComponent};
ghost use Rattle.fare_verdict.specs.Stages.{CutMet, IsComponentTested, IsJourneyTested, IsTested, JoinedMet, KnownMet};
ghost use Rattle.fare_verdict.specs.Told.{AreStages};

use crate::told::Stages;
use fare_book::Book;
use fare_law::{Request, Ticket};
use ticket_whole::{ComponentDemand, Demand, JourneyDemand, broken_at};

/// What is known of the ticket.
pub fn stages_of(ticket: &Ticket, book: &Book, request: &Request) -> Stages
    requires { IsRequest request.now }
    ensures { AreStages book.now request.now ticket.now result }
{
    Stages {
        known: is_known(ticket, book, request),
        cut: meets(
            Demand::OfJourney(JourneyDemand::Slices),
            ticket,
            book,
            request,
        ),
        joined: is_joined(ticket, book, request),
    }
}

/// Whether there are components, each of 1 to 4 known flights.
fn is_known(ticket: &Ticket, book: &Book, request: &Request) -> bool
    requires { IsRequest request.now }
    ensures { IsTrue result ↔ KnownMet book.now request.now ticket.now }
{
    meets(Demand::HasComponent, ticket, book, request)
        && each_meets(ComponentDemand::KnownFlights, ticket, book, request)
        && each_meets(ComponentDemand::FlightCount, ticket, book, request)
}

/// Whether the components are without gaps and on live fares between their ends, and the labels are
/// numbered.
fn is_joined(ticket: &Ticket, book: &Book, request: &Request) -> bool
    requires { IsRequest request.now }
    ensures { IsTrue result ↔ JoinedMet book.now request.now ticket.now }
{
    each_meets(ComponentDemand::NoGap, ticket, book, request)
        && each_meets(ComponentDemand::PlacesOnce, ticket, book, request)
        && each_meets(ComponentDemand::LiveFare, ticket, book, request)
        && each_meets(ComponentDemand::FareEnds, ticket, book, request)
        && meets(Demand::Labels, ticket, book, request)
}

/// Whether each component meets the demand.
fn each_meets(demand: ComponentDemand, ticket: &Ticket, book: &Book, request: &Request) -> bool
    requires { IsRequest request.now }
    ensures { IsTrue result ↔ Met book.now request.now ticket.now (OfComponent demand) }
{
    meets(Demand::OfComponent(demand), ticket, book, request)
}

/// Whether the ticket meets the demand.
fn meets(demand: Demand, ticket: &Ticket, book: &Book, request: &Request) -> bool
    requires { IsRequest request.now }
    ensures { IsTrue result ↔ Met book.now request.now ticket.now demand }
{
    broken_at(demand, ticket, book, request).is_none()
}

/// Whether the demand is tested of the ticket of which this is known.
pub fn is_tested(demand: Demand, stages: Stages) -> bool
    ensures { (b : BookData) (q : RequestData) (t : TicketData) → AreStages b q t stages → IsTrue result ↔ IsTested b q t demand }
{
    match demand {
        Demand::HasComponent => true,
        Demand::OfComponent(demand) => is_component_tested(demand, stages),
        Demand::OfJourney(JourneyDemand::Slices) => stages.known,
        Demand::OfJourney(_) => stages.known && stages.cut,
        Demand::Labels => stages.known,
        Demand::OfUnit(_) => stages.known && stages.joined,
        Demand::EndOnEnd => stages.known && stages.joined,
        Demand::Straddling => stages.known && stages.joined,
    }
}

/// Whether the demand is tested of the components.
fn is_component_tested(demand: ComponentDemand, stages: Stages) -> bool
    ensures { (b : BookData) (q : RequestData) (t : TicketData) → AreStages b q t stages → IsTrue result ↔ IsComponentTested b q t demand }
{
    match demand {
        ComponentDemand::KnownFlights | ComponentDemand::FlightCount => true,
        ComponentDemand::NoGap
        | ComponentDemand::PlacesOnce
        | ComponentDemand::LiveFare
        | ComponentDemand::FareEnds => stages.known,
        ComponentDemand::Seats
        | ComponentDemand::DayTime
        | ComponentDemand::Flights
        | ComponentDemand::Stopovers
        | ComponentDemand::Transfers => stages.known && stages.joined,
    }
}
