//! The tables of positions, each found once.
ghost use Rattle.std.specs.Prelude.{◌≡◌, [], IfOk, IfSome};
ghost use Rattle.component_table.specs.Networks.{IsNetwork};
ghost use Rattle.fare_law.specs.declared.requests.Request.{Request as Asked};
ghost use Rattle.fare_law.specs.Book.{Book as Version};
ghost use Rattle.fare_law.specs.Limits.{IsRequest};
ghost use Rattle.residual_table.specs.Keys.{KeepsNumbers};
ghost use Rattle.search_steps.specs.Tables.{AreTables, TableAt};

use crate::Case;
use crate::entry_order::in_order;
use component_table::{Network, outlines_of, same_position};
use fare_law::{List, Mem};
use flight_paths::Position;
use indexmap::IndexMap;
use outlines::Entry;
use std::alloc::Global;

/// The table of a position.
#[derive(Drop)]
pub struct PositionTable {
    pub at: Position,
    pub entries: List<Entry>,
}

/// The tables of the positions that were asked for so far.
#[derive(Drop)]
pub struct Tables {
    pub kept: Vec<PositionTable>,
    /// Where a position's table may stand.
    pub places: IndexMap<Position, usize>,
    /// What the tables are found by, kept for all of them.
    pub network: Network,
}

impl Tables {
    /// None yet.
    pub fn new(alloc: Global) -> Tables
        ensures kept { result.kept.items ≡ [] }
        ensures network { (b : Version) (q : Asked) → IsNetwork b q result.network }
    {
        Tables {
            kept: Vec::new(alloc),
            places: IndexMap::new(alloc),
            network: Network::new(alloc),
        }
    }

    /// Where the table of a position stands, which is found where it isn't known.
    pub fn find(&mut self, alloc: Global, case: &Case, at: &Position) -> Result<usize, Mem>
        requires request { IsRequest case.now.request.now }
        requires right { AreTables case.now.book.now case.now.request.now self.old }
        ensures right { AreTables case.now.book.now case.now.request.now self.new }
        ensures stays { KeepsNumbers self.old.kept.items self.new.kept.items }
        ensures found { IfOk result (TableAt self.new.kept.items at.now) }
    {
        if let Some(place) = known(self.kept.as_slice(), &self.places, at) {
            return Ok(place);
        }
        let entries = outlines_of(alloc, case.book, case.request, at, &mut self.network)?;
        let place = self.kept.len();
        self.places.insert(*at, place)?;
        self.kept.push(PositionTable {
            at: *at,
            entries: in_order(entries),
        })?;
        Ok(place)
    }
}

/// Where the table of a position stands, if it is known.
fn known(kept: &[PositionTable], places: &IndexMap<Position, usize>, at: &Position) -> Option<usize>
    ensures { IfSome result (TableAt kept.now at.now) }
{
    let place = places.get(at).copied()?;
    let table = kept.get(place)?;
    if same_position(&table.at, at) {
        Some(place)
    } else {
        None
    }
}
