//! The paths of a position that end where a fare is filed from its place or to it.
ghost use Rattle.std.specs.Prelude.{◌≡◌, ◌<◌, IfOk, length, ⊤};
ghost use Rattle.asked_keys.specs.Offering.{AreServed};
ghost use Rattle.component_table.specs.Networks.{IsNetwork};
ghost use Rattle.fare_law.specs.Limits.{IsRequest};
ghost use Rattle.flight_paths.specs.Plans.{HasPlan};

use component_table::Network;
use fare_book::Book;
use fare_law::{List, Mem, Request};
use flight_paths::{Path, PathVisitor, Position, visit_paths};
use schedule_book::Schedule;
use std::alloc::Global;

/// The paths that were visited so far.
#[derive(Drop)]
struct Seen {
    paths: Vec<Path>,
}

impl PathVisitor for Seen {
    ghost told = { λ s paths. s.paths.items ≡ paths };

    ghost knows = { λ tails numbers. ⊤ };

    fn visit(&mut self, path: &Path) -> Result<(), Mem> {
        self.paths.push(path.copied())?;
        Ok(())
    }
}

/// Paths of a position, and among them each that ends where a fare is filed from its place or to it.
pub fn served_paths(
    alloc: Global,
    book: &Book,
    request: &Request,
    network: &mut Network,
    at: &Position,
) -> Result<List<Path>, Mem>
    requires request { IsRequest request.now }
    requires known { at.now.slice < length request.now.slices }
    requires network { IsNetwork book.now request.now network.old }
    ensures network { IsNetwork book.now request.now network.new }
    ensures paths { IfOk result (AreServed book.now request.now at.now) }
{
    let place = network.find_fare_tails(alloc, book, request, at.place, at.slice + 1)?;
    let tails = network.tails_at(book, request, place);
    let mut seen = Seen {
        paths: Vec::new(alloc),
    };
    visit_paths(
        alloc,
        schedule_of(book),
        request,
        at,
        &tails.some,
        &mut seen,
    )?;
    Ok(List::from_vec(seen.paths))
}

/// The places and the flights of a book.
pub fn schedule_of(book: &Book) -> &Schedule
    ensures { HasPlan book.now result.now }
{
    book.timetable().schedule()
}
