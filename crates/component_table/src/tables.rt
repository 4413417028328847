//! The table of a position, flight by flight.
ghost use Rattle.std.specs.Prelude.{◌≡◌, ◌+◌, ◌*◌, ◌<◌, ◌≤◌, ◌↔◌, ◌∷◌, ◌++◌, [], IfOk, IsTrue, List as Items, OnOk, Some, length, slice_get};
ghost use Rattle.component_table.specs.Begun.{AddsBegun, AreCrossingHeads, CrossingPaths, HeadPaths, TakesOne};
ghost use Rattle.component_table.specs.Networks.{IsNetwork, IsTableRoom};
ghost use Rattle.component_table.specs.Steps.{BeginsBy, GathersHeads, MergesMore};
ghost use Rattle.component_table.specs.Tables.{AddsThose, IsPricedTable, IsTable};
ghost use Rattle.fare_law.specs.declared.requests.Request.{Request as Asked};
ghost use Rattle.fare_law.specs.Book.{Book as Version};
ghost use Rattle.fare_law.specs.Limits.{IsRequest};
ghost use Rattle.fare_law.specs.Lists.{Each, IsPrefix};
ghost use Rattle.outline_tables.specs.declared.outline_numbers.Priced.{Priced as OnePrice};
ghost use Rattle.outline_tables.specs.FlightTables.{TableStands};
ghost use Rattle.outline_tables.specs.Merges.{IsLeastMerge, IsMerging};
ghost use Rattle.fare_ends.specs.Begins.{IsShared, narrowed, shared};
ghost use Rattle.schedule_book.specs.Departures.{DepartsFrom};

use crate::begun::{Begun, Known, Origin};
use crate::crossing::{JoinOrigin, join};
use crate::networks::Network;
use fare_book::Book;
use fare_ends::{TableCase, schedule_of};
use fare_law::{List, Mem, Request, Slice};
use flight_paths::Position;
use joint_paths::JoinRoom;
use outline_tables::{FlightTables, Merging};
use outlines::Entry;
use std::alloc::Global;

/// What tables of positions are made of, as far as they were asked for.
#[derive(Drop)]
pub struct TableRoom {
    pub known: Known,
    pub flights: FlightTables,
    pub begun: Begun,
    pub joins: JoinRoom,
    pub merging: Merging,
    /// Of how many positions before a slice the heads were joined together, by slices.
    pub together: Vec<u32>,
}

/// So many positions before a slice have their heads joined together. Of more, each flight has a table of its own: that is
/// dearer for one position, and cheaper for many.
const FEW: u32 = 4;

impl TableRoom {
    /// Nothing yet.
    pub fn new(alloc: Global) -> TableRoom
        ensures { (b : Version) (q : Asked) → IsTableRoom b q result }
    {
        TableRoom {
            known: Known::new(alloc),
            flights: FlightTables::new(alloc),
            begun: Begun::new(alloc),
            joins: JoinRoom::new(alloc),
            merging: Merging::new(alloc),
            together: Vec::new(alloc),
        }
    }
}

/// The table of a position. The markets and the tails that it needs are found once.
pub fn outlines_of(
    alloc: Global,
    book: &Book,
    request: &Request,
    position: &Position,
    network: &mut Network,
) -> Result<List<Entry>, Mem>
    requires request { IsRequest request.now }
    requires network { IsNetwork book.now request.now network.old }
    ensures network { IsNetwork book.now request.now network.new }
    ensures table { IfOk result (IsTable book.now request.now position.now) }
{
    let Some(slice) = request.slices.as_slice().get(position.slice as usize) else {
        return Ok(List::new(alloc));
    };
    // After three flights there is no further one in the slice.
    if position.leg > 2 {
        return Ok(List::new(alloc));
    }
    let case = TableCase {
        alloc,
        book,
        request,
    };
    network.merge_all(&case, slice, position)?;
    let room = &network.room;
    room.known
        .outlines
        .entries(alloc, room.merging.table.as_slice())
}

impl Network {
    /// Merges what begins at a position into an empty table.
    fn merge_all(&mut self, case: &TableCase<'_>, slice: &Slice, at: &Position) -> Result<(), Mem>
        requires request { IsRequest case.now.request.now }
        requires slice { slice_get case.now.request.now.slices at.now.slice ≡ Some slice.now }
        requires leg { at.now.leg ≤ 2 }
        requires network { IsNetwork case.now.book.now case.now.request.now self.old }
        ensures network { IsNetwork case.now.book.now case.now.request.now self.new }
        ensures table { OnOk result (IsPricedTable case.now.book.now case.now.request.now at.now self.new.room.known.outlines.of.items self.new.room.merging.table.items) }
    {
        self.room.merging.begin();
        if are_joined_together(&mut self.room.together, case.request, at)? {
            self.begin_all(case, at)
        } else {
            self.begin_each(case, slice, at)
        }
    }

    /// Merges what begins at a position with each of its flights, of which those that cross are joined together.
    fn begin_all(&mut self, case: &TableCase<'_>, at: &Position) -> Result<(), Mem>
        requires request { IsRequest case.now.request.now }
        requires known { at.now.slice < length case.now.request.now.slices }
        requires network { IsNetwork case.now.book.now case.now.request.now self.old }
        requires begins { self.old.room.merging.table.items ≡ [] }
        ensures network { IsNetwork case.now.book.now case.now.request.now self.new }
        ensures table { OnOk result (IsPricedTable case.now.book.now case.now.request.now at.now self.new.room.known.outlines.of.items self.new.room.merging.table.items) }
    {
        self.room.begun.clear();
        let numbers = schedule_of(case.book).from_place(at.place, at.lo, at.hi);
        for number in numbers {
            self.merge_heads(case, at, *number)?;
        }
        self.merge_crossing(case, at)
    }

    /// Merges what begins with a flight and ends in the slice. The heads that cross are gathered.
    fn merge_heads(&mut self, case: &TableCase<'_>, at: &Position, number: u32) -> Result<(), Mem>
        requires slice { at.now.slice < length case.now.request.now.slices }
        requires low { at.now.lo ≤ number }
        requires high { number < at.now.hi }
        requires flight { DepartsFrom case.now.book.now.timetable.flights at.now.place number }
        requires network { IsNetwork case.now.book.now case.now.request.now self.old }
        requires none { self.old.room.begun.found.items ≡ [] }
        ensures network { IsNetwork case.now.book.now case.now.request.now self.new }
        ensures none { OnOk result (self.new.room.begun.found.items ≡ []) }
        ensures outlines { IsPrefix self.old.room.known.outlines.of.items self.new.room.known.outlines.of.items }
        ensures heads { OnOk result (GathersHeads case.now.book.now case.now.request.now (narrowed at.now number) self.old.room.begun.heads.items self.new.room.begun.heads.items) }
        ensures merged { OnOk result (MergesMore case.now.book.now case.now.request.now at.now (HeadPaths case.now.book.now case.now.request.now (narrowed at.now number)) self.new.room.known.outlines.of.items self.old.room.merging.table.items self.new.room.merging.table.items) }
    {
        self.add_begun(case, &narrowed(at, number))?;
        self.merge_begun()
    }

    /// Merges what the heads that were gathered give with the tails of the next slice.
    fn merge_crossing(&mut self, case: &TableCase<'_>, at: &Position) -> Result<(), Mem>
        requires request { IsRequest case.now.request.now }
        requires network { IsNetwork case.now.book.now case.now.request.now self.old }
        requires heads { AreCrossingHeads case.now.book.now case.now.request.now at.now self.old.room.begun.heads.items }
        requires none { self.old.room.begun.found.items ≡ [] }
        ensures network { IsNetwork case.now.book.now case.now.request.now self.new }
        ensures outlines { IsPrefix self.old.room.known.outlines.of.items self.new.room.known.outlines.of.items }
        ensures merged { OnOk result (MergesMore case.now.book.now case.now.request.now at.now (CrossingPaths case.now.book.now case.now.request.now at.now) self.new.room.known.outlines.of.items self.old.room.merging.table.items self.new.room.merging.table.items) }
    {
        self.join_begun(case, at)?;
        self.merge_begun()
    }

    /// Merges what begins with each of a position's flights.
    fn begin_each(&mut self, case: &TableCase<'_>, slice: &Slice, at: &Position) -> Result<(), Mem>
        requires request { IsRequest case.now.request.now }
        requires slice { slice_get case.now.request.now.slices at.now.slice ≡ Some slice.now }
        requires leg { at.now.leg ≤ 2 }
        requires network { IsNetwork case.now.book.now case.now.request.now self.old }
        requires begins { self.old.room.merging.table.items ≡ [] }
        ensures network { IsNetwork case.now.book.now case.now.request.now self.new }
        ensures table { OnOk result (IsPricedTable case.now.book.now case.now.request.now at.now self.new.room.known.outlines.of.items self.new.room.merging.table.items) }
    {
        let numbers = schedule_of(case.book).from_place(at.place, at.lo, at.hi);
        for number in numbers {
            self.merge_flight(case, slice, at, *number)?;
        }
        Ok(())
    }

    /// Merges what begins with a flight of a position.
    fn merge_flight(
        &mut self,
        case: &TableCase<'_>,
        slice: &Slice,
        at: &Position,
        number: u32,
    ) -> Result<(), Mem>
        requires request { IsRequest case.now.request.now }
        requires slice { slice_get case.now.request.now.slices at.now.slice ≡ Some slice.now }
        requires leg { at.now.leg ≤ 2 }
        requires low { at.now.lo ≤ number }
        requires high { number < at.now.hi }
        requires flight { DepartsFrom case.now.book.now.timetable.flights at.now.place number }
        requires network { IsNetwork case.now.book.now case.now.request.now self.old }
        ensures network { IsNetwork case.now.book.now case.now.request.now self.new }
        ensures outlines { IsPrefix self.old.room.known.outlines.of.items self.new.room.known.outlines.of.items }
        ensures merged { OnOk result (MergesMore case.now.book.now case.now.request.now at.now (λ _ ns. BeginsBy number ns) self.new.room.known.outlines.of.items self.old.room.merging.table.items self.new.room.merging.table.items) }
    {
        if is_shared(slice, at) {
            return self.merge_shared(case, slice, at, number);
        }
        self.begin(case, &narrowed(at, number))?;
        self.merge_begun()
    }

    /// Merges the table of a flight at the slice and leg of a position.
    fn merge_shared(
        &mut self,
        case: &TableCase<'_>,
        slice: &Slice,
        at: &Position,
        number: u32,
    ) -> Result<(), Mem>
        requires request { IsRequest case.now.request.now }
        requires slice { slice_get case.now.request.now.slices at.now.slice ≡ Some slice.now }
        requires leg { at.now.leg ≤ 2 }
        requires shared { IsShared slice.now at.now }
        requires low { at.now.lo ≤ number }
        requires high { number < at.now.hi }
        requires flight { DepartsFrom case.now.book.now.timetable.flights at.now.place number }
        requires network { IsNetwork case.now.book.now case.now.request.now self.old }
        ensures network { IsNetwork case.now.book.now case.now.request.now self.new }
        ensures outlines { IsPrefix self.old.room.known.outlines.of.items self.new.room.known.outlines.of.items }
        ensures merged { OnOk result (MergesMore case.now.book.now case.now.request.now at.now (λ _ ns. BeginsBy number ns) self.new.room.known.outlines.of.items self.old.room.merging.table.items self.new.room.merging.table.items) }
    {
        self.find_flight(case, slice, at, number)?;
        let count = self.room.known.outlines.len();
        match self.room.flights.get(at, number) {
            Some(table) => self.room.merging.add(table, count),
            None => Ok(()),
        }
    }

    /// Makes the table of a flight, unless it was asked for before.
    fn find_flight(
        &mut self,
        case: &TableCase<'_>,
        slice: &Slice,
        at: &Position,
        number: u32,
    ) -> Result<(), Mem>
        requires request { IsRequest case.now.request.now }
        requires slice { slice_get case.now.request.now.slices at.now.slice ≡ Some slice.now }
        requires leg { at.now.leg ≤ 2 }
        requires shared { IsShared slice.now at.now }
        requires high { number < at.now.hi }
        requires flight { DepartsFrom case.now.book.now.timetable.flights at.now.place number }
        requires network { IsNetwork case.now.book.now case.now.request.now self.old }
        ensures network { IsNetwork case.now.book.now case.now.request.now self.new }
        ensures merging { self.new.room.merging ≡ self.old.room.merging }
        ensures outlines { IsPrefix self.old.room.known.outlines.of.items self.new.room.known.outlines.of.items }
        ensures stands { OnOk result ((table : Items OnePrice) × TableStands self.new.room.flights (at.now.slice * 3 + at.now.leg) number table) }
    {
        if self.room.flights.get(at, number).is_some() {
            return Ok(());
        }
        self.begin_shared(case, slice, at, number)?;
        let table = self.room.begun.found.as_slice();
        self.room.flights.put(case.alloc, at, number, table)
    }

    /// Finds what begins with a flight at the slice and leg of a position, whichever place was called at first. A third flight
    /// that doesn't end the slice can't be taken.
    fn begin_shared(
        &mut self,
        case: &TableCase<'_>,
        slice: &Slice,
        at: &Position,
        number: u32,
    ) -> Result<(), Mem>
        requires request { IsRequest case.now.request.now }
        requires slice { slice_get case.now.request.now.slices at.now.slice ≡ Some slice.now }
        requires leg { at.now.leg ≤ 2 }
        requires high { number < at.now.hi }
        requires flight { DepartsFrom case.now.book.now.timetable.flights at.now.place number }
        requires network { IsNetwork case.now.book.now case.now.request.now self.old }
        ensures network { IsNetwork case.now.book.now case.now.request.now self.new }
        ensures merging { self.new.room.merging ≡ self.old.room.merging }
        ensures flights { self.new.room.flights ≡ self.old.room.flights }
        ensures outlines { IsPrefix self.old.room.known.outlines.of.items self.new.room.known.outlines.of.items }
        ensures table { OnOk result (IsPricedTable case.now.book.now case.now.request.now (shared at.now number) self.new.room.known.outlines.of.items self.new.room.begun.found.items) }
    {
        let flight = &case.flights()[number as usize];
        if at.leg < 2 || flight.to.is(slice.to) {
            return self.begin(case, &shared(at, number));
        }
        self.room.begun.clear();
        Ok(())
    }

    /// Finds what begins at a position that takes one flight alone.
    fn begin(&mut self, case: &TableCase<'_>, at: &Position) -> Result<(), Mem>
        requires request { IsRequest case.now.request.now }
        requires one { TakesOne case.now.book.now case.now.request.now at.now }
        requires network { IsNetwork case.now.book.now case.now.request.now self.old }
        ensures network { IsNetwork case.now.book.now case.now.request.now self.new }
        ensures merging { self.new.room.merging ≡ self.old.room.merging }
        ensures flights { self.new.room.flights ≡ self.old.room.flights }
        ensures outlines { IsPrefix self.old.room.known.outlines.of.items self.new.room.known.outlines.of.items }
        ensures table { OnOk result (IsPricedTable case.now.book.now case.now.request.now at.now self.new.room.known.outlines.of.items self.new.room.begun.found.items) }
    {
        self.room.begun.clear();
        self.add_begun(case, at)?;
        self.join_begun(case, at)
    }

    /// Adds the heads of a position that takes one flight alone.
    fn add_begun(&mut self, case: &TableCase<'_>, at: &Position) -> Result<(), Mem>
        requires one { TakesOne case.now.book.now case.now.request.now at.now }
        requires network { IsNetwork case.now.book.now case.now.request.now self.old }
        requires none { self.old.room.begun.found.items ≡ [] }
        ensures network { IsNetwork case.now.book.now case.now.request.now self.new }
        ensures merging { self.new.room.merging ≡ self.old.room.merging }
        ensures flights { self.new.room.flights ≡ self.old.room.flights }
        ensures outlines { IsPrefix self.old.room.known.outlines.of.items self.new.room.known.outlines.of.items }
        ensures begun { OnOk result (AddsBegun case.now.book.now case.now.request.now at.now self.new.room.known self.old.room.begun self.new.room.begun) }
    {
        let first = &case.flights()[at.lo as usize];
        let origin = Origin { case, at, first };
        let room = &mut self.room;
        room.begun.add(&origin, &mut self.markets, &mut self.masks, &mut room.known)
    }

    /// Joins the heads that were gathered with the tails of the next slice.
    fn join_begun(&mut self, case: &TableCase<'_>, at: &Position) -> Result<(), Mem>
        requires request { IsRequest case.now.request.now }
        requires network { IsNetwork case.now.book.now case.now.request.now self.old }
        requires heads { AreCrossingHeads case.now.book.now case.now.request.now at.now self.old.room.begun.heads.items }
        ensures network { IsNetwork case.now.book.now case.now.request.now self.new }
        ensures merging { self.new.room.merging ≡ self.old.room.merging }
        ensures flights { self.new.room.flights ≡ self.old.room.flights }
        ensures outlines { IsPrefix self.old.room.known.outlines.of.items self.new.room.known.outlines.of.items }
        ensures found { OnOk result (AddsThose case.now.book.now case.now.request.now at.now (CrossingPaths case.now.book.now case.now.request.now at.now) self.new.room.known.outlines.of.items self.old.room.begun.found.items self.new.room.begun.found.items) }
    {
        case.book.limits();
        if self.room.begun.heads.is_empty() {
            return Ok(());
        }
        let place = self.find_tails(case.alloc, case.book, case.request, at.slice + 1)?;
        let origin = JoinOrigin { case, at };
        let room = &mut self.room;
        join(
            &origin,
            &mut self.markets,
            &mut room.known,
            &mut self.tails[place],
            &mut room.begun,
            &mut room.joins,
        )
    }

    /// Merges what was found, and forgets it.
    fn merge_begun(&mut self) -> Result<(), Mem>
        requires merging { IsMerging self.old.room.merging }
        requires numbers { Each (λ (p : OnePrice). p.outline < length self.old.room.known.outlines.of.items) self.old.room.begun.found.items }
        ensures network { (b : Version) (q : Asked) → IsNetwork b q self.old → IsNetwork b q self.new }
        ensures known { self.new.room.known ≡ self.old.room.known }
        ensures heads { self.new.room.begun.heads ≡ self.old.room.begun.heads }
        ensures found { self.new.room.begun.found.items ≡ [] }
        ensures merged { OnOk result ((tables : Items (Items OnePrice)) → IsLeastMerge tables self.old.room.merging.table.items → IsLeastMerge (tables ++ self.old.room.begun.found.items ∷ []) self.new.room.merging.table.items) }
    {
        let room = &mut self.room;
        let count = room.known.outlines.len();
        let merged = room.merging.add(room.begun.found.as_slice(), count);
        room.begun.found.clear();
        merged
    }
}

/// Whether the heads of a position are joined together with tails: some may cross, and those of few positions before the
/// slice were so far.
fn are_joined_together(
    together: &mut Vec<u32>,
    request: &Request,
    at: &Position,
) -> Result<bool, Mem> {
    if at.leg > 0 || !may_cross(request.slices.as_slice(), at.slice as usize) {
        return Ok(false);
    }
    while together.len() <= at.slice as usize {
        together.push(0)?;
    }
    let count = together[at.slice as usize];
    if count >= FEW {
        return Ok(false);
    }
    together[at.slice as usize] = count + 1;
    Ok(true)
}

/// Whether a path may cross from a slice into the next.
fn may_cross(slices: &[Slice], at: usize) -> bool {
    match (slices.get(at), slices.get(at.saturating_add(1))) {
        (Some(slice), Some(next)) => next.from.is(slice.to),
        _ => false,
    }
}

/// The position that takes one flight alone.
fn narrowed(at: &Position, number: u32) -> Position
    requires { number < at.now.hi }
    ensures { result ≡ narrowed at.now number }
{
    Position {
        lo: number,
        hi: number + 1,
        ..*at
    }
}

/// The position that takes one flight alone, whichever place was called at first.
fn shared(at: &Position, number: u32) -> Position
    requires { number < at.now.hi }
    ensures { result ≡ shared at.now number }
{
    Position {
        via: None,
        ..narrowed(at, number)
    }
}

/// Whether what begins at a position with a flight hangs on no place that was called at first: none was, or the third flight,
/// which ends the slice elsewhere, is to be taken.
fn is_shared(slice: &Slice, at: &Position) -> bool
    ensures { IsTrue result ↔ IsShared slice.now at.now }
{
    match at.via {
        Some(via) => at.leg == 2 && !via.is(slice.to),
        None => true,
    }
}
