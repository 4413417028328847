//! What the leads within a limit tell of the paths on which a move may be within it: how they begin, where they end, their
//! classes, and the groups of fares of each class. Other paths and groups are looked at no further.
ghost use Rattle.std.specs.Cmp.{IsEquivalence};
ghost use Rattle.std.specs.Prelude.{◌≡◌, [], List as Items, Some, true, slice_get, IfNone, IfOk, IfSome, IsSome, OnOk};
ghost use Rattle.cheap_moves.specs.Hopes.{AreHopes, GroupAdded, HasHopes, HopeAdded, IsClass, begins_with, class_of, groups_of, marked, start_of};
ghost use Rattle.cheap_moves.specs.Leads.{AreLeads};
ghost use Rattle.fare_law.specs.declared.flights.Flight.{Flight as DatedFlight};
ghost use Rattle.fare_law.specs.Lists.{Each, OnFirst, OnLast};
ghost use Rattle.fare_law.specs.Parts.{Numbers};
ghost use Rattle.flight_paths.specs.Plans.{HasPlan};

use crate::MoveSearch;
use crate::bounds::ResidualBounds;
use crate::fares::is_within;
use crate::leads::Lead;
use crate::prospects::{Prospect, Prospects, prospect_of};
use fare_book::Book;
use fare_law::{Carrier, Flight, Mem, Place};
use flight_paths::{Ends, Path, Position};
use indexmap::IndexMap;
use outlines::Outline;
use schedule_book::Schedule;
use std::alloc::Global;
use std::hash::Hash;

/// What a path has in common with others: where it leads, its end, the days of its first and its last flight, and
/// the carrier of its first. A fare's carrier is that of the first flight.
#[derive(Clone, Copy, PartialEq, Eq, Hash)]
pub struct PathClass {
    pub after: Option<Position>,
    pub end: Place,
    pub first: i32,
    pub last: i32,
    pub carrier: Carrier,
}

/// How a path begins: the day of its first flight, and its carrier.
#[derive(Clone, Copy, PartialEq, Eq, Hash)]
pub struct PathStart {
    pub day: i32,
    pub carrier: Carrier,
}

/// How the paths begin that have the outlines of the leads within a limit, where they end, and their classes, each with
/// the groups of its leads.
#[derive(Drop)]
pub struct Hopes {
    pub starts: IndexMap<PathStart, bool>,
    pub ends: IndexMap<Place, bool>,
    pub classes: IndexMap<PathClass, Prospects>,
}

impl Ends for Hopes {
    ghost wanted = { λ s place. marked ⟦<Place as PartialEq>⟧.eq s.ends place };

    fn wants(&self, place: Place) -> bool {
        self.ends.get(&place).copied().unwrap_or(false)
    }
}

/// The beginnings, ends, classes and groups that the moves within the limit have. It takes less time where the leads are in
/// the order of their groups.
pub fn hopes_of<B: ResidualBounds>(
    alloc: Global,
    search: &MoveSearch<'_, B>,
    leads: &[Lead],
) -> Result<Hopes, Mem>
    requires { AreLeads search.now.book.now search.now.request.now search.now.residual.now (B.bound search.now.bounds.now) leads.now }
    ensures { IfOk result (AreHopes ⟦<PathStart as PartialEq>⟧.eq ⟦<Place as PartialEq>⟧.eq ⟦<PathClass as PartialEq>⟧.eq search.now.book.now search.now.request.now search.now.residual.now (B.bound search.now.bounds.now) search.now.limit) }
{
    within(alloc, leads, search.limit)
}

/// The beginnings, ends and classes of the leads that are within the limit, with their groups.
fn within(alloc: Global, leads: &[Lead], limit: Option<u128>) -> Result<Hopes, Mem>
    ensures { IfOk result (HasHopes ⟦<PathStart as PartialEq>⟧.eq ⟦<Place as PartialEq>⟧.eq ⟦<PathClass as PartialEq>⟧.eq limit leads.now) }
{
    let mut hopes = Hopes {
        starts: IndexMap::new(alloc),
        ends: IndexMap::new(alloc),
        classes: IndexMap::new(alloc),
    };
    for lead in leads {
        add_lead(alloc, &mut hopes, lead, limit)?;
    }
    Ok(hopes)
}

/// Adds the beginning, the end and the class of a lead with its group, where it is within the limit.
fn add_lead(alloc: Global, hopes: &mut Hopes, lead: &Lead, limit: Option<u128>) -> Result<(), Mem>
    ensures { OnOk result (HopeAdded ⟦<PathStart as PartialEq>⟧.eq ⟦<Place as PartialEq>⟧.eq ⟦<PathClass as PartialEq>⟧.eq limit lead.now hopes.old hopes.new) }
{
    if !is_within(limit, lead.total) {
        return Ok(());
    }
    let group = prospect_of(&lead.outline);
    mark(&mut hopes.starts, start_of(&lead.outline))?;
    mark(&mut hopes.ends, lead.outline.end)?;
    add_group(alloc, &mut hopes.classes, class_of(&lead.outline), group)
}

/// Adds a group to those of a class.
fn add_group<K: Hash + Eq + Drop>(
    alloc: Global,
    classes: &mut IndexMap<K, Prospects>,
    class: K,
    group: Prospect,
) -> Result<(), Mem>
    ensures { OnOk result (GroupAdded K.eq class group classes.old classes.new) }
{
    keys_equivalence::<K>();
    if let Some(known) = classes.get_mut(&class) {
        return known.put(group);
    }
    let mut new = Prospects::new(alloc);
    new.put(group)?;
    classes.insert(class, new)?;
    Ok(())
}

// The test of keys is an equivalence.
fn keys_equivalence<K: Eq>()
    ensures { IsEquivalence K.eq }
{}

/// Marks a key.
fn mark<K: Hash + Eq + Copy + Drop>(marks: &mut IndexMap<K, bool>, key: K) -> Result<(), Mem>
    ensures has { OnOk result (marked K.eq marks.new key ≡ true) }
    ensures keeps { OnOk result ((other : K) → marked K.eq marks.old other ≡ true → marked K.eq marks.new other ≡ true) }
{
    marks.insert(key, true)?;
    Ok(())
}

/// How the paths begin that an outline's components may have.
fn start_of(outline: &Outline) -> PathStart
    ensures { result ≡ start_of outline.now }
{
    PathStart {
        day: outline.first,
        carrier: outline.carrier,
    }
}

/// The class of the paths that an outline's components may have.
fn class_of(outline: &Outline) -> PathClass
    ensures { result ≡ class_of outline.now }
{
    PathClass {
        after: outline.after,
        end: outline.end,
        first: outline.first,
        last: outline.last,
        carrier: outline.carrier,
    }
}

/// Whether a path on which a move may be within the limit begins with a flight.
pub fn may_begin(hopes: &Hopes, flight: &Flight) -> bool
    ensures { result ≡ marked ⟦<PathStart as PartialEq>⟧.eq hopes.now.starts (begins_with flight.now) }
{
    let start = PathStart {
        day: flight.day,
        carrier: flight.carrier,
    };
    hopes.starts.get(&start).copied().unwrap_or(false)
}

/// The groups with which a move on a path of a class may be within the limit.
pub fn groups_of<'h>(hopes: &'h Hopes, class: &PathClass) -> &'h [Prospect]
    ensures { result.now ≡ groups_of ⟦<PathClass as PartialEq>⟧.eq hopes.now.classes class.now }
{
    match hopes.classes.get(class) {
        Some(known) => known.groups.as_slice(),
        None => &[],
    }
}

/// The class of a path. None where it has no flights of the book.
pub fn class_over(book: &Book, path: &Path) -> Option<PathClass>
    ensures some { IfSome result (λ x. (fs : Items DatedFlight) → Numbers book.now path.now.flights fs → IsClass x path.now.after fs) }
    ensures none { IfNone result ((fs : Items DatedFlight) → Numbers book.now path.now.flights fs → fs ≡ []) }
{
    let all = schedule_of(book).flights();
    let first = first_flight(all, path.flights.as_slice())?;
    let last = last_flight(all, path.flights.as_slice())?;
    Some(PathClass {
        after: path.after,
        end: last.to,
        first: first.day,
        last: last.day,
        carrier: first.carrier,
    })
}

/// The flight of the first of some numbers.
fn first_flight(all: &[Flight], numbers: &[u32]) -> Option<Flight>
    ensures some { IfSome result (λ f. OnFirst (λ n. slice_get all.now n ≡ Some f) numbers.now) }
    ensures none { IfNone result (Each (λ n. IsSome (slice_get all.now n)) numbers.now → numbers.now ≡ []) }
{
    match numbers {
        [first, ..] => flight_of(all, *first),
        [] => None,
    }
}

/// The flight of the last of some numbers.
fn last_flight(all: &[Flight], numbers: &[u32]) -> Option<Flight>
    ensures some { IfSome result (λ f. OnLast (λ n. slice_get all.now n ≡ Some f) numbers.now) }
    ensures none { IfNone result (Each (λ n. IsSome (slice_get all.now n)) numbers.now → numbers.now ≡ []) }
{
    match numbers {
        [.., last] => flight_of(all, *last),
        [] => None,
    }
}

/// The flight of this number, if there is one.
fn flight_of(all: &[Flight], number: u32) -> Option<Flight>
    ensures { result ≡ slice_get all.now number }
{
    all.get(number as usize).copied()
}

/// The places and the flights of a book.
pub fn schedule_of(book: &Book) -> &Schedule
    ensures { HasPlan book.now result.now }
{
    book.timetable().schedule()
}
