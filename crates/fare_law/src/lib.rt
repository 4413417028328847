//! The plain records of flights, fares, rules, filings, requests and tickets, and in `specs/` the
//! definitions of the law: what a book has, which tickets are lawful, what they cost, which are best.
//! Every layer above cites these definitions; a reader has to believe no others.
#![tactic(auto)]

mod array;
mod fares;
mod filings;
mod flights;
mod gate;
mod laws;
mod limits;
mod list;
mod market;
mod mem;
mod moves;
mod names;
mod requests;
mod rows;
mod rules;
mod shared;
mod sheets;
mod tickets;

pub use array::ArrayVec;
pub use fares::{Fare, FareKey, FareKind};
pub use filings::{Action, BookWhy, Filing, Refused, SeatKey};
pub use flights::Flight;
pub use gate::{Gate, NoGate};
pub use laws::requests_are_judged;
pub use limits::{
    CODE_NUMBERS, CODE_NUMBERS_OF_A_MOVE, FIRST_DAY, LAST_DAY, MOST_ACTIONS, MOST_COMPONENTS,
    MOST_COMPONENTS_OF_A_SLICE, MOST_DATED_FLIGHTS, MOST_ENTRIES, MOST_FARES, MOST_FLIGHTS,
    MOST_FLIGHTS_OF_A_COMPONENT, MOST_PASSENGERS, MOST_RULES, MOST_SEAT_ROWS, MOST_SLICES,
    MOST_TICKETS, MOST_WINDOW_DAYS,
};
pub use list::List;
pub use market::{MarketSheet, OfferKey};
pub use mem::Mem;
pub use moves::{Code, Move, Role};
pub use names::{Basis, Carrier, Class, Place};
pub use requests::{Request, Slice, Why};
pub use rows::{FlightRow, PlaceRow, SeatRow, TextLine};
pub use rules::{
    CombineRule, DayRange, DayTime, EndOnEnd, FlightRange, FlightRule, MinStay, Partners, Rule,
    StopRule, Surcharge, TransferRule, TravelRule, UnitKind,
};
pub use shared::Shared;
pub use sheets::{Leg, SheetRow};
pub use tickets::{Component, Piece, Priced, Ticket};
