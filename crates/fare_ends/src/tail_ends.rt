//! Where the tails of a slice end: each place once, and for each tail the number of its own.
ghost use Rattle.std.specs.Prelude.{◌≡◌, ◌∷◌, ◌++◌, [], IfOk, List as Items, OnOk};
ghost use Rattle.fare_ends.specs.Tails.{AreEnds};
ghost use Rattle.flight_paths.specs.declared.positions.Path.{Path as PathData};

use crate::gathering::last_flight;
use fare_book::Book;
use fare_law::{Mem, Place};
use flight_paths::Path;
use indexmap::IndexSet;
use std::alloc::Global;

/// The places where tails end, and for each tail the number of the place where it ends, in the order of the tails.
#[derive(Drop)]
pub struct TailEnds {
    pub places: IndexSet<Place>,
    pub of: Vec<usize>,
}

impl TailEnds {
    /// No tail.
    fn new(alloc: Global) -> TailEnds
        ensures { result.of.items ≡ [] }
    {
        TailEnds {
            places: IndexSet::new(alloc),
            of: Vec::new(alloc),
        }
    }

    /// Adds where one more tail ends.
    fn add(&mut self, book: &Book, tail: &Path) -> Result<(), Mem>
        ensures { OnOk result ((tails : Items PathData) → AreEnds book.now tails self.old → AreEnds book.now (tails ++ tail.now ∷ []) self.new) }
    {
        let end = match last_flight(book, tail.flights.as_slice()) {
            Some(last) => self.places.insert_full(last.to)?.0,
            // Each tail of a slice has a last flight, so of another any number will do.
            None => 0,
        };
        self.of.push(end)?;
        Ok(())
    }
}

/// Where these tails end.
pub fn ends_of(alloc: Global, book: &Book, tails: &[Path]) -> Result<TailEnds, Mem>
    ensures { IfOk result (AreEnds book.now tails.now) }
{
    let mut ends = TailEnds::new(alloc);
    for tail in tails {
        ends.add(book, tail)?;
    }
    Ok(ends)
}
