//! The paths of a position that begin with a flight, and begin and end as moves within the limit do.
ghost use Rattle.std.specs.Prelude.{◌≡◌, ◌<◌, ◌≤◌, ◌+◌, Bool as Truth, IfOk, ⊤};
ghost use Rattle.cheap_moves.specs.Hopes.{begins_with, marked};
ghost use Rattle.cheap_moves.specs.Sought.{AreSoughtBy, IsOpen, narrowed};
ghost use Rattle.fare_law.specs.declared.names.Place.{Place as PlaceName};
ghost use Rattle.fare_law.specs.Book.{Book as Version};
ghost use Rattle.flight_paths.specs.Heads.{HasTails, chosen};
ghost use Rattle.flight_paths.specs.Plans.{HasPlan};
ghost use Rattle.schedule_book.specs.Departures.{DepartsFrom};

use crate::hopes::{Hopes, PathStart, may_begin};
use fare_law::{List, Mem, Request};
use flight_paths::{Path, PathVisitor, Position, SomeTails, visit_paths};
use schedule_book::Schedule;
use std::alloc::Global;

/// Paths that were visited.
#[derive(Drop)]
struct Visited {
    paths: Vec<Path>,
}

impl PathVisitor for Visited {
    ghost told = { λ s paths. s.paths.items ≡ paths };

    ghost knows = { λ tails numbers. ⊤ };

    fn visit(&mut self, path: &Path) -> Result<(), Mem> {
        self.paths.push(path.copied())?;
        Ok(())
    }
}

/// A position of a request, and the tails that its paths may end with.
#[derive(Drop)]
pub struct Opening<'a> {
    pub schedule: &'a Schedule,
    pub request: &'a Request,
    pub position: &'a Position,
    pub tails: SomeTails<'a>,
}

/// Paths of a position that begin with the flight of this number, each once, and among them each that begins as one with a move
/// within the limit may, and ends where all tails are.
pub fn paths_from(
    alloc: Global,
    opening: &Opening<'_>,
    hopes: &Hopes,
    number: u32,
) -> Result<List<Path>, Mem>
    requires open { IsOpen opening.now }
    requires range { (opening.now.position.now.lo ≤ number) × (number < opening.now.position.now.hi) }
    requires departs { DepartsFrom opening.now.schedule.now.flights opening.now.position.now.place number }
    ensures { IfOk result (λ paths. (b : Version) (wanted : PlaceName → Truth) → HasPlan b opening.now.schedule.now → HasTails b opening.now.request.now.slices (opening.now.position.now.slice + 1) wanted (chosen opening.now.tails.all.now opening.now.tails.numbers.now) → AreSoughtBy b opening.now.request.now.slices opening.now.position.now (λ f. marked ⟦<PathStart as PartialEq>⟧.eq hopes.now.starts (begins_with f)) wanted (λ n. n ≡ number) paths) }
{
    if !may_begin(hopes, &opening.schedule.flights()[number as usize]) {
        return Ok(List::new(alloc));
    }
    let narrow = narrowed(opening.position, number);
    let mut visited = Visited {
        paths: Vec::new(alloc),
    };
    visit_paths(
        alloc,
        opening.schedule,
        opening.request,
        &narrow,
        &opening.tails,
        &mut visited,
    )?;
    Ok(List::from_vec(visited.paths))
}

/// The position from where the flight of this number alone leads on.
fn narrowed(position: &Position, number: u32) -> Position
    requires { number < position.now.hi }
    ensures { result ≡ narrowed position.now number }
{
    Position {
        slice: position.slice,
        leg: position.leg,
        place: position.place,
        via: position.via,
        lo: number,
        hi: number + 1,
    }
}
