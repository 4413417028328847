//! The paths of a position that begin with one flight: those that end where a fare is filed are put in, those that cross are
//! gathered.
ghost use Rattle.std.specs.Prelude.{◌≡◌, [], IfOk, List as Items, OnOk, length};
ghost use Rattle.component_table.specs.Begun.{AddsBegun, AddsCrossing, AddsHead, AddsHeads, AddsLanding, AreHeadsOf, AreLandings, IsKnown, IsOrigin, LandedPaths, StaysKnown};
ghost use Rattle.component_table.specs.Tables.{HasThose};
ghost use Rattle.fare_ends.specs.Markets.{AreMarkets};
ghost use Rattle.fare_ends.specs.Masks.{AreMasks};
ghost use Rattle.fare_law.specs.declared.flights.Flight.{Flight as DatedFlight};
ghost use Rattle.fare_law.specs.Book.{Book as Version};
ghost use Rattle.fare_law.specs.Parts.{Numbers};
ghost use Rattle.flight_paths.specs.Heads.{AreHeads, IsHead};
ghost use Rattle.fare_ends.specs.Legs.{HasLegs};

use crate::landed::{Landing, price_landings};
use fare_ends::{EndKey, FareEnd, FareEnds, Markets, Masks, TableCase, last_flight, schedule_of};
use fare_law::{Flight, List, Mem};
use flight_paths::{Path, Position, heads};
use joint_paths::{CrossingHead, NumberedPath, PositionNumbers, RuleCharges, crossing_head};
use outline_tables::{OutlineNumbers, Priced};
use std::alloc::Global;

/// A position that takes one flight alone.
#[derive(Clone, Copy)]
pub struct Origin<'a> {
    pub case: &'a TableCase<'a>,
    pub at: &'a Position,
    pub first: &'a Flight,
}

/// What is known by numbers: fares of ends, outlines, and positions.
#[derive(Drop)]
pub struct Known {
    pub fares: FareEnds,
    pub outlines: OutlineNumbers,
    pub positions: PositionNumbers,
}

/// What is known of the paths that begin at a position so far: outlines with prices, and the heads that cross.
#[derive(Drop)]
pub struct Begun {
    pub found: Vec<Priced>,
    pub heads: Vec<CrossingHead>,
    pub landings: Vec<Landing>,
    pub charges: RuleCharges,
}

impl Known {
    /// Nothing yet.
    pub fn new(alloc: Global) -> Known
        ensures { (b : Version) → IsKnown b result }
    {
        Known {
            fares: FareEnds::new(alloc),
            outlines: OutlineNumbers::new(alloc),
            positions: PositionNumbers::new(alloc),
        }
    }
}

impl Begun {
    /// None yet.
    pub fn new(alloc: Global) -> Begun {
        Begun {
            found: Vec::new(alloc),
            heads: Vec::new(alloc),
            landings: Vec::new(alloc),
            charges: RuleCharges::new(alloc),
        }
    }

    /// Forgets all.
    pub fn clear(&mut self)
        ensures found { self.new.found.items ≡ [] }
        ensures heads { self.new.heads.items ≡ [] }
    {
        self.found.clear();
        self.heads.clear();
    }

    /// Adds what begins at a position that takes one flight alone.
    pub fn add(
        &mut self,
        origin: &Origin<'_>,
        markets: &mut Markets,
        masks: &mut Masks,
        known: &mut Known,
    ) -> Result<(), Mem>
        requires origin { IsOrigin origin.now }
        requires markets { AreMarkets origin.now.case.now.book.now markets.old.kept.items }
        requires masks { AreMasks origin.now.case.now.book.now origin.now.case.now.request.now masks.old }
        requires known { IsKnown origin.now.case.now.book.now known.old }
        requires none { self.old.found.items ≡ [] }
        ensures markets { AreMarkets origin.now.case.now.book.now markets.new.kept.items }
        ensures masks { AreMasks origin.now.case.now.book.now origin.now.case.now.request.now masks.new }
        ensures known { IsKnown origin.now.case.now.book.now known.new }
        ensures stays { StaysKnown known.old known.new }
        ensures begun { OnOk result (AddsBegun origin.now.case.now.book.now origin.now.case.now.request.now origin.now.at.now known.new self.old self.new) }
    {
        origin.case.book.limits();
        let paths = heads_of(origin)?;
        self.landings.clear();
        self.add_heads(origin, markets, masks, known, paths.as_slice())?;
        self.add_landed(origin, known, paths.as_slice())
    }

    /// Adds the heads of the position.
    fn add_heads(
        &mut self,
        origin: &Origin<'_>,
        markets: &mut Markets,
        masks: &mut Masks,
        known: &mut Known,
        paths: &[Path],
    ) -> Result<(), Mem>
        requires origin { IsOrigin origin.now }
        requires markets { AreMarkets origin.now.case.now.book.now markets.old.kept.items }
        requires masks { AreMasks origin.now.case.now.book.now origin.now.case.now.request.now masks.old }
        requires known { IsKnown origin.now.case.now.book.now known.old }
        requires paths { AreHeadsOf origin.now paths.now }
        requires none { self.old.landings.items ≡ [] }
        ensures markets { AreMarkets origin.now.case.now.book.now markets.new.kept.items }
        ensures masks { AreMasks origin.now.case.now.book.now origin.now.case.now.request.now masks.new }
        ensures known { IsKnown origin.now.case.now.book.now known.new }
        ensures stays { StaysKnown known.old known.new }
        ensures found { self.new.found ≡ self.old.found }
        ensures heads { OnOk result (AddsHeads origin.now known.new.fares paths.now (length paths.now) self.new.landings.items self.old.heads.items self.new.heads.items) }
    {
        for number in 0..paths.len() {
            let path = NumberedPath {
                number,
                path: &paths[number],
            };
            self.add_head(origin, markets, masks, known, &path)?;
        }
        Ok(())
    }

    /// Adds a head.
    fn add_head(
        &mut self,
        origin: &Origin<'_>,
        markets: &mut Markets,
        masks: &mut Masks,
        known: &mut Known,
        path: &NumberedPath<'_>,
    ) -> Result<(), Mem>
        requires origin { IsOrigin origin.now }
        requires markets { AreMarkets origin.now.case.now.book.now markets.old.kept.items }
        requires masks { AreMasks origin.now.case.now.book.now origin.now.case.now.request.now masks.old }
        requires known { IsKnown origin.now.case.now.book.now known.old }
        requires head { (fs : Items DatedFlight) × IsHead origin.now.case.now.book.now origin.now.case.now.request.now.slices origin.now.at.now path.now.path.now.flights fs path.now.path.now.after }
        ensures markets { AreMarkets origin.now.case.now.book.now markets.new.kept.items }
        ensures masks { AreMasks origin.now.case.now.book.now origin.now.case.now.request.now masks.new }
        ensures known { IsKnown origin.now.case.now.book.now known.new }
        ensures stays { StaysKnown known.old known.new }
        ensures found { self.new.found ≡ self.old.found }
        ensures added { OnOk result (AddsHead origin.now known.new path.now self.old self.new) }
    {
        let case = origin.case;
        let classes = masks.classes_of(case.book, case.request, path.path.flights.as_slice())?;
        if classes == 0 {
            return Ok(());
        }
        self.add_crossing(origin, path.path, classes)?;
        self.add_landing(origin, markets, known, path, classes)
    }

    /// Adds a head to those that cross, if a tail may follow it.
    fn add_crossing(&mut self, origin: &Origin<'_>, path: &Path, classes: u32) -> Result<(), Mem>
        requires origin { IsOrigin origin.now }
        requires head { (fs : Items DatedFlight) × IsHead origin.now.case.now.book.now origin.now.case.now.request.now.slices origin.now.at.now path.now.flights fs path.now.after }
        requires classes { (fs : Items DatedFlight) → Numbers origin.now.case.now.book.now path.now.flights fs → HasLegs origin.now.case.now.book.now origin.now.case.now.request.now fs classes }
        ensures found { self.new.found ≡ self.old.found }
        ensures landings { self.new.landings ≡ self.old.landings }
        ensures added { OnOk result (AddsCrossing origin.now.case.now.book.now origin.now.case.now.request.now origin.now.at.now path.now self.old.heads.items self.new.heads.items) }
    {
        match crossing_head(origin.case, origin.at, path, origin.first, classes) {
            Some(head) => Ok(self.heads.push(head)?),
            None => Ok(()),
        }
    }

    /// Adds the landing of a head, if it ends where a fare is filed.
    fn add_landing(
        &mut self,
        origin: &Origin<'_>,
        markets: &mut Markets,
        known: &mut Known,
        path: &NumberedPath<'_>,
        classes: u32,
    ) -> Result<(), Mem>
        requires origin { IsOrigin origin.now }
        requires markets { AreMarkets origin.now.case.now.book.now markets.old.kept.items }
        requires known { IsKnown origin.now.case.now.book.now known.old }
        requires head { (fs : Items DatedFlight) × IsHead origin.now.case.now.book.now origin.now.case.now.request.now.slices origin.now.at.now path.now.path.now.flights fs path.now.path.now.after }
        requires classes { (fs : Items DatedFlight) → Numbers origin.now.case.now.book.now path.now.path.now.flights fs → HasLegs origin.now.case.now.book.now origin.now.case.now.request.now fs classes }
        ensures markets { AreMarkets origin.now.case.now.book.now markets.new.kept.items }
        ensures known { IsKnown origin.now.case.now.book.now known.new }
        ensures stays { StaysKnown known.old known.new }
        ensures found { self.new.found ≡ self.old.found }
        ensures heads { self.new.heads ≡ self.old.heads }
        ensures added { OnOk result (AddsLanding origin.now known.new.fares path.now self.old.landings.items self.new.landings.items) }
    {
        let Some(last) = last_flight(origin.case.book, path.path.flights.as_slice()) else {
            return Ok(());
        };
        let key = EndKey {
            from: origin.at.place,
            to: last.to,
            carrier: origin.first.carrier,
        };
        let end = known.fares.find(origin.case, markets, key)?;
        if end.is_empty() {
            return Ok(());
        }
        let after = known.positions.number(&path.path.after)?;
        self.landings
            .push(landing_of(path.number, after, last, classes, end))?;
        Ok(())
    }

    /// Adds the outlines of the landings.
    fn add_landed(
        &mut self,
        origin: &Origin<'_>,
        known: &mut Known,
        paths: &[Path],
    ) -> Result<(), Mem>
        requires origin { IsOrigin origin.now }
        requires known { IsKnown origin.now.case.now.book.now known.old }
        requires landings { AreLandings origin.now known.old.fares paths.now self.old.landings.items }
        requires none { self.old.found.items ≡ [] }
        ensures known { IsKnown origin.now.case.now.book.now known.new }
        ensures fares { known.new.fares ≡ known.old.fares }
        ensures stays { StaysKnown known.old known.new }
        ensures heads { self.new.heads ≡ self.old.heads }
        ensures found { OnOk result (HasThose origin.now.case.now.book.now origin.now.case.now.request.now origin.now.at.now (LandedPaths paths.now self.old.landings.items) known.new.outlines.of.items self.new.found.items) }
    {
        self.landings.sort_unstable_by_key(order_of);
        let landings = self.landings.as_slice();
        let charges = &mut self.charges;
        let found = &mut self.found;
        price_landings(origin, known, charges, found, paths, landings)
    }
}

/// The heads of an origin.
fn heads_of(origin: &Origin<'_>) -> Result<List<Path>, Mem>
    requires { IsOrigin origin.now }
    ensures { IfOk result (AreHeads origin.now.case.now.book.now origin.now.case.now.request.now.slices origin.now.at.now) }
{
    let case = origin.case;
    heads(case.alloc, schedule_of(case.book), case.request, origin.at)
}

/// The landing of a path by its number, which ends with a flight.
fn landing_of(number: usize, after: usize, last: &Flight, classes: u32, end: FareEnd) -> Landing
    ensures path { result.path ≡ number }
    ensures last { result.last ≡ last.now.day }
    ensures place { result.place ≡ last.now.to }
    ensures classes { result.classes ≡ classes }
    ensures end { result.end ≡ end }
{
    Landing {
        after,
        last: last.day,
        place: last.to,
        path: number,
        classes,
        end,
    }
}

fn order_of(landing: &Landing) -> (usize, i32) {
    (landing.after, landing.last)
}
