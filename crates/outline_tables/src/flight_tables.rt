//! What begins with a flight at a leg of a slice: the table of the position that takes this flight alone. Each position that
//! takes it there has the same of it.
ghost use Rattle.std.specs.Prelude.{◌≡◌, ◌<◌, ◌+◌, ◌*◌, ℕ, IfNone, IfOk, IfSome, List as Items, OnOk, length};
ghost use Rattle.outline_tables.specs.declared.outline_numbers.Priced.{Priced as OnePrice};
ghost use Rattle.outline_tables.specs.FlightTables.{AreRanges, HasPlace, HasRoom, KeepsLevels, KeepsPlaces, KeepsTables, PutsTable, SetsPlace, TableStands};

use crate::outline_numbers::Priced;
use fare_law::Mem;
use flight_paths::Position;
use std::alloc::Global;

/// Where a table stands.
#[derive(Clone, Copy)]
pub struct TableRange {
    pub from: usize,
    pub to: usize,
}

/// The tables that were asked for so far.
#[derive(Drop)]
pub struct FlightTables {
    /// By slice and leg, and then by the flight's number: 0 where it wasn't asked for, or the number of the range plus 1.
    pub places: Vec<Vec<usize>>,
    pub ranges: Vec<TableRange>,
    pub entries: Vec<Priced>,
}

impl FlightTables {
    /// None yet.
    pub fn new(alloc: Global) -> FlightTables
        ensures ranges { AreRanges result }
        ensures none { (level flight : ℕ) (table : Items OnePrice) → TableStands result level flight table → ⊥ }
    {
        FlightTables {
            places: Vec::new(alloc),
            ranges: Vec::new(alloc),
            entries: Vec::new(alloc),
        }
    }

    /// The table of a flight at the slice and leg of a position, if it was asked for.
    #[inline]
    pub fn get(&self, at: &Position, flight: u32) -> Option<&[Priced]>
        requires { AreRanges self.now }
        ensures found { IfSome result (λ table. TableStands self.now (at.now.slice * 3 + at.now.leg) flight table.now) }
        ensures none { IfNone result ((table : Items OnePrice) → TableStands self.now (at.now.slice * 3 + at.now.leg) flight table → ⊥) }
    {
        let places = self.places.as_slice().get(level_of(at))?;
        let place = places.as_slice().get(flight as usize)?;
        let number = place.checked_sub(1)?;
        let range = self.ranges.as_slice().get(number)?;
        Some(&self.entries[range.from..range.to])
    }

    /// Adds the table of a flight.
    pub fn put(
        &mut self,
        alloc: Global,
        at: &Position,
        flight: u32,
        table: &[Priced],
    ) -> Result<(), Mem>
        requires { AreRanges self.old }
        ensures ranges { AreRanges self.new }
        ensures put { PutsTable (at.now.slice * 3 + at.now.leg) flight table.now self.old self.new }
        ensures stands { OnOk result (TableStands self.new (at.now.slice * 3 + at.now.leg) flight table.now) }
    {
        let place = self.add(table)?;
        let level = level_of(at);
        make_room(alloc, &mut self.places, level, flight as usize)?;
        set_place(&mut self.places, level, flight as usize, place);
        Ok(())
    }

    /// Adds a table, and gives its number plus 1.
    fn add(&mut self, table: &[Priced]) -> Result<usize, Mem>
        requires { AreRanges self.old }
        ensures ranges { AreRanges self.new }
        ensures keeps { KeepsTables self.old self.new }
        ensures added { IfOk result (HasPlace self.new table.now) }
    {
        let from = self.entries.len();
        self.entries.extend_from_slice(table)?;
        let to = self.entries.len();
        self.ranges.push(TableRange { from, to })?;
        Ok(self.ranges.len())
    }
}

/// Makes room for the number of a flight's table.
fn make_room(
    alloc: Global,
    levels: &mut Vec<Vec<usize>>,
    level: usize,
    flight: usize,
) -> Result<(), Mem>
    ensures keeps { KeepsLevels levels.old.items levels.new.items }
    ensures room { OnOk result (HasRoom levels.new.items level flight) }
{
    add_levels(alloc, levels, level)?;
    lengthen(&mut levels[level], flight)
}

/// Adds levels up to this one.
fn add_levels(alloc: Global, levels: &mut Vec<Vec<usize>>, level: usize) -> Result<(), Mem>
    ensures keeps { KeepsLevels levels.old.items levels.new.items }
    ensures room { OnOk result (level < length levels.new.items) }
{
    while levels.len() <= level {
        levels.push(Vec::new(alloc))?;
    }
    Ok(())
}

/// Adds places up to that of a flight.
fn lengthen(places: &mut Vec<usize>, flight: usize) -> Result<(), Mem>
    ensures keeps { KeepsPlaces places.old.items places.new.items }
    ensures room { OnOk result (flight < length places.new.items) }
{
    while places.len() <= flight {
        places.push(0)?;
    }
    Ok(())
}

/// Sets a place.
fn set_place(levels: &mut Vec<Vec<usize>>, level: usize, flight: usize, place: usize)
    requires { HasRoom levels.old.items level flight }
    ensures { SetsPlace levels.old.items levels.new.items level flight place }
{
    levels[level][flight] = place;
}

/// The number of a position's slice and leg.
fn level_of(at: &Position) -> usize
    ensures { result ≡ at.now.slice * 3 + at.now.leg }
{
    at.slice as usize * 3 + at.leg as usize
}
