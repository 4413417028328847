//! The classes with seats for the party on each flight, found once.
ghost use Rattle.std.specs.Prelude.{◌≡◌, ◌<◌, [], IfOk, IfSome, List as Items, OnOk, Some, slice_get, vec_len};
ghost use Rattle.fare_ends.specs.Masks.{AreMasks, IsMask, IsMaskOf, KnowsNoMore, PutsMask};
ghost use Rattle.fare_law.specs.declared.flights.Flight.{Flight as DatedFlight};
ghost use Rattle.fare_law.specs.Book.{flight_at};
ghost use Rattle.fare_law.specs.Parts.{Numbers};
ghost use Rattle.fare_ends.specs.Legs.{HasLegs};

use crate::gathering::{flight_of, schedule_of};
use fare_book::Book;
use fare_law::{Flight, Mem, Request};
use std::alloc::Global;

/// The masks of flights by their numbers, as far as they were asked for: bit c for class c.
#[derive(Drop)]
pub struct Masks {
    pub known: Vec<Option<u32>>,
}

impl Masks {
    /// None yet.
    pub fn new(alloc: Global) -> Masks
        ensures { result.known.items ≡ [] }
    {
        Masks {
            known: Vec::new(alloc),
        }
    }

    /// The classes that are open for the party in each of the flights of these numbers.
    pub fn classes_of(
        &mut self,
        book: &Book,
        request: &Request,
        numbers: &[u32],
    ) -> Result<u32, Mem>
        requires { AreMasks book.now request.now self.old }
        ensures masks { AreMasks book.now request.now self.new }
        ensures classes { IfOk result (λ classes. (fs : Items DatedFlight) → Numbers book.now numbers.now fs → HasLegs book.now request.now fs classes) }
    {
        let mut classes = u32::MAX;
        for number in numbers {
            classes &= self.mask(book, request, *number)?;
        }
        Ok(classes)
    }

    /// The classes with seats for the party on the flight of this number. A number of no flight may have any.
    pub fn mask(&mut self, book: &Book, request: &Request, number: u32) -> Result<u32, Mem>
        requires { AreMasks book.now request.now self.old }
        ensures masks { AreMasks book.now request.now self.new }
        ensures mask { IfOk result (IsMaskOf book.now request.now number) }
    {
        match known(self.known.as_slice(), number) {
            Some(mask) => Ok(mask),
            None => self.find(book, request, number),
        }
    }

    /// Finds the mask of the flight of this number.
    fn find(&mut self, book: &Book, request: &Request, number: u32) -> Result<u32, Mem>
        requires { AreMasks book.now request.now self.old }
        ensures masks { AreMasks book.now request.now self.new }
        ensures mask { IfOk result (IsMaskOf book.now request.now number) }
    {
        let all = schedule_of(book).flights();
        match flight_of(all, number) {
            Some(flight) => self.add(book, request, number, flight),
            None => Ok(0),
        }
    }

    /// Adds the mask of a flight.
    fn add(
        &mut self,
        book: &Book,
        request: &Request,
        number: u32,
        flight: &Flight,
    ) -> Result<u32, Mem>
        requires masks { AreMasks book.now request.now self.old }
        requires flight { flight_at book.now number ≡ Some flight.now }
        ensures masks { AreMasks book.now request.now self.new }
        ensures mask { IfOk result (IsMaskOf book.now request.now number) }
    {
        let mask = mask_of(book, request, flight);
        put(&mut self.known, number as usize, mask)?;
        Ok(mask)
    }
}

/// The mask of the flight of this number, if it is known.
fn known(known: &[Option<u32>], number: u32) -> Option<u32>
    ensures { IfSome result (λ mask. slice_get known.now number ≡ Some (Some mask)) }
{
    match known.get(number as usize) {
        Some(Some(mask)) => Some(*mask),
        _ => None,
    }
}

/// The classes with seats for the party on a flight.
fn mask_of(book: &Book, request: &Request, flight: &Flight) -> u32
    ensures { IsMask book.now request.now flight.now result }
{
    book.seats().mask(flight, request.party)
}

/// Puts in the mask at a place.
fn put(known: &mut Vec<Option<u32>>, at: usize, mask: u32) -> Result<(), Mem>
    ensures { PutsMask at mask known.old.items known.new.items }
{
    lengthen(known, at)?;
    known[at] = Some(mask);
    Ok(())
}

/// Makes room for the mask at a place.
fn lengthen(known: &mut Vec<Option<u32>>, at: usize) -> Result<(), Mem>
    ensures same { KnowsNoMore known.old.items known.new.items }
    ensures room { OnOk result (at < vec_len known.new) }
{
    while known.len() <= at {
        known.push(None)?;
    }
    Ok(())
}
