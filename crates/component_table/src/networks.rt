//! What is found once for a search, and kept for all its positions.
ghost use Rattle.std.specs.Prelude.{◌<◌, ℕ, IfOk, IfSome};
ghost use Rattle.component_table.specs.Networks.{ArePlaceTails, IsNetwork, KeepsRoom, TailsStand};
ghost use Rattle.component_table.specs.Tails.{FareTailsStand};
ghost use Rattle.fare_law.specs.declared.names.Place.{Place as PlaceName};
ghost use Rattle.fare_law.specs.declared.requests.Request.{Request as Asked};
ghost use Rattle.fare_law.specs.Book.{Book as Version};

use crate::slice_tails::SliceTails;
use crate::tables::TableRoom;
use fare_book::Book;
use fare_ends::{Markets, Masks, TableCase, ends_of, fare_tails, schedule_of};
use fare_law::{List, Mem, Place, Request};
use flight_paths::{SomeTails, marks_of, tails};
use indexmap::IndexMap;
use joint_paths::{JoinEnds, classes_of_tails};
use std::alloc::Global;

/// The tails of a slice that end where a fare is filed from a place or to it.
#[derive(Drop)]
pub struct FareTails {
    pub place: Place,
    pub slice: u8,
    /// Where the tails of the slice stand.
    pub among: usize,
    /// Their numbers among those of the slice.
    pub numbers: List<usize>,
}

/// The tails of a slice that a place needs.
#[derive(Clone, Copy)]
pub struct PlaceTails<'a> {
    pub some: SomeTails<'a>,
}

/// What the tails of a slice that a place needs are looked up by.
#[derive(Clone, Copy, PartialEq, Eq, Hash)]
pub struct TailsKey {
    pub place: Place,
    pub slice: u8,
}

/// The markets, the masks of flights and the tails of a search, as far as they were asked for.
#[derive(Drop)]
pub struct Network {
    pub markets: Markets,
    pub masks: Masks,
    pub tails: Vec<SliceTails>,
    pub fare_tails: Vec<FareTails>,
    /// Where the tails of a slice that a place needs may stand.
    pub places: IndexMap<TailsKey, usize>,
    pub room: TableRoom,
}

impl Network {
    /// Nothing yet.
    pub fn new(alloc: Global) -> Network
        ensures { (b : Version) (q : Asked) → IsNetwork b q result }
    {
        Network {
            markets: Markets::new(alloc),
            masks: Masks::new(alloc),
            tails: Vec::new(alloc),
            fare_tails: Vec::new(alloc),
            places: IndexMap::new(alloc),
            room: TableRoom::new(alloc),
        }
    }

    /// Where the tails of a slice stand.
    pub fn find_tails(
        &mut self,
        alloc: Global,
        book: &Book,
        request: &Request,
        slice: u8,
    ) -> Result<usize, Mem>
        requires { IsNetwork book.now request.now self.old }
        ensures network { IsNetwork book.now request.now self.new }
        ensures room { KeepsRoom self.old.room self.new.room }
        ensures tails { IfOk result (TailsStand self.new.tails.items slice) }
    {
        if let Some(at) = known(self.tails.as_slice(), slice) {
            return Ok(at);
        }
        let at = self.tails.len();
        let paths = tails(alloc, schedule_of(book), request, slice)?;
        let marks = marks_of(alloc, schedule_of(book), paths.as_slice())?;
        let ends = ends_of(alloc, book, paths.as_slice())?;
        let case = TableCase {
            alloc,
            book,
            request,
        };
        let classes = classes_of_tails(
            &case,
            &mut self.masks,
            &mut self.room.known.positions,
            paths.as_slice(),
        )?;
        self.tails.push(SliceTails {
            slice,
            paths,
            marks,
            classes,
            joins: JoinEnds::new(alloc),
            ends,
        })?;
        Ok(at)
    }

    /// Where the tails of a slice stand that end where a fare is filed from a place or to it: those that the
    /// paths of the positions at this place, of the slice before, may need.
    pub fn find_fare_tails(
        &mut self,
        alloc: Global,
        book: &Book,
        request: &Request,
        place: Place,
        slice: u8,
    ) -> Result<usize, Mem>
        requires { IsNetwork book.now request.now self.old }
        ensures network { IsNetwork book.now request.now self.new }
        ensures tails { IfOk result (FareTailsStand self.new.fare_tails.items place slice) }
    {
        if let Some(at) = known_for(self.fare_tails.as_slice(), &self.places, place, slice) {
            return Ok(at);
        }
        let among = self.find_tails(alloc, book, request, slice)?;
        let all = &self.tails[among];
        let numbers = fare_tails(alloc, book, place, &all.ends)?;
        let at = self.fare_tails.len();
        self.places.insert(TailsKey { place, slice }, at)?;
        self.fare_tails.push(FareTails {
            place,
            slice,
            among,
            numbers,
        })?;
        Ok(at)
    }

    /// The tails of a slice that a place needs, which stand there.
    pub fn tails_at(&self, book: &Book, request: &Request, at: usize) -> PlaceTails<'_>
        requires network { IsNetwork book.now request.now self.now }
        requires tails { (place : PlaceName) × (slice : ℕ) × FareTailsStand self.now.fare_tails.items place slice at }
        ensures tails { (place : PlaceName) (slice : ℕ) → FareTailsStand self.now.fare_tails.items place slice at → ArePlaceTails book.now request.now place slice result }
    {
        let _ = book;
        let _ = request;
        let numbered = &self.fare_tails[at];
        let slice = &self.tails[numbered.among];
        PlaceTails {
            some: SomeTails {
                all: slice.paths.as_slice(),
                marks: slice.marks.as_slice(),
                numbers: numbered.numbers.as_slice(),
            },
        }
    }
}

/// Where the tails of a slice stand, if they are known.
fn known(tails: &[SliceTails], slice: u8) -> Option<usize>
    ensures { IfSome result (TailsStand tails.now slice) }
{
    for at in 0..tails.len() {
        if let Some(found) = known_at(tails, at, slice) {
            return Some(found);
        }
    }
    None
}

/// A place, if the tails of a slice stand there.
fn known_at(tails: &[SliceTails], at: usize, slice: u8) -> Option<usize>
    ensures { IfSome result (TailsStand tails.now slice) }
{
    let found = tails.get(at)?;
    if found.slice == slice { Some(at) } else { None }
}

/// Where the tails of a slice stand that a place needs, if they are known.
fn known_for(
    tails: &[FareTails],
    places: &IndexMap<TailsKey, usize>,
    place: Place,
    slice: u8,
) -> Option<usize>
    ensures { IfSome result (FareTailsStand tails.now place slice) }
{
    let at = places.get(&TailsKey { place, slice }).copied()?;
    let found = tails.get(at)?;
    if found.place.is(place) && found.slice == slice {
        Some(at)
    } else {
        None
    }
}
