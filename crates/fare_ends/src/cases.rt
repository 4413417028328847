//! What a search is over.
ghost use Rattle.std.specs.Prelude.{◌≡◌, ◌⊎◌, ◌↔◌, ◌+◌, ◌≤◌, ◌<◌, ◌++◌, IfSome, IsTrue, List as Items, Some, length};
ghost use Rattle.fare_ends.specs.NumberedFlights.{AddsFlights};
ghost use Rattle.fare_law.specs.declared.flights.Flight.{Flight as DatedFlight};
ghost use Rattle.fare_law.specs.Limits.{IsFlight};
ghost use Rattle.fare_law.specs.Lists.{Each};
ghost use Rattle.fare_law.specs.Parts.{Numbers};

use crate::gathering::schedule_of;
use fare_book::Book;
use fare_law::{ArrayVec, Flight, MOST_FLIGHTS_OF_A_COMPONENT, Request};
use std::alloc::Global;

/// The book and the request of a search.
#[derive(Clone, Copy)]
pub struct TableCase<'a> {
    pub alloc: Global,
    pub book: &'a Book,
    pub request: &'a Request,
}

impl<'a> TableCase<'a> {
    /// The flights of the book.
    pub fn flights(&self) -> &'a [Flight]
        ensures flights { result.now ≡ self.now.book.now.timetable.flights }
        ensures limits { Each IsFlight result.now }
    {
        schedule_of(self.book).flights()
    }

    /// The flights of these numbers, some and then more.
    pub fn flights_of(
        &self,
        front: &[u32],
        back: &[u32],
    ) -> ArrayVec<Flight, MOST_FLIGHTS_OF_A_COMPONENT>
        requires few { length front.now + length back.now ≤ MOST_FLIGHTS_OF_A_COMPONENT }
        requires front { (fs : Items DatedFlight) × Numbers self.now.book.now front.now fs }
        requires back { (fs : Items DatedFlight) × Numbers self.now.book.now back.now fs }
        ensures numbers { Numbers self.now.book.now (front.now ++ back.now) result }
        ensures limits { Each IsFlight result }
    {
        let mut flights = ArrayVec::new();
        self.add_flights(front, &mut flights);
        self.add_flights(back, &mut flights);
        flights
    }

    /// Adds the flights of these numbers.
    fn add_flights(
        &self,
        numbers: &[u32],
        flights: &mut ArrayVec<Flight, MOST_FLIGHTS_OF_A_COMPONENT>,
    )
        requires few { length flights.old + length numbers.now ≤ MOST_FLIGHTS_OF_A_COMPONENT }
        requires known { (fs : Items DatedFlight) × Numbers self.now.book.now numbers.now fs }
        requires limits { Each IsFlight flights.old }
        ensures adds { AddsFlights self.now.book.now numbers.now flights.old flights.new }
        ensures limits { Each IsFlight flights.new }
    {
        let all = self.flights();
        for number in numbers {
            flights.push(all[*number as usize]);
        }
    }
}

/// Whether a price is less than the least so far.
#[inline]
pub fn is_less(price: u64, least: Option<u64>) -> bool
    ensures { IsTrue result ↔ IfSome least (λ l. price < l) }
{
    match least {
        Some(least) => price < least,
        None => true,
    }
}

/// The lesser of a price and the least so far.
#[inline]
pub fn lesser(price: u64, least: Option<u64>) -> u64
    ensures below { result ≤ price }
    ensures least { IfSome least (λ l. result ≤ l) }
    ensures one { (result ≡ price) ⊎ (least ≡ Some result) }
{
    match least {
        Some(least) if least <= price => least,
        _ => price,
    }
}
