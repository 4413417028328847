//! The least moves of residuals, drawn once for all fronts that lead there.
ghost use Rattle.std.specs.Prelude.{◌≡◌, ◌≤◌, ◌<◌, ◌^◌, [], IfOk, IfSome, OnOk, length, map};
ghost use Rattle.certificate_check.specs.Drawings.{AreDrawings, HasDrawing, IsEnough};
ghost use Rattle.certificate_check.specs.Tables.{HasRows, IsLater};
ghost use Rattle.fare_law.specs.Limits.{IsRequest};
ghost use Rattle.fare_law.specs.Lists.{AllDifferent};
ghost use Rattle.search_steps.specs.Keys.{live, state};

use crate::table::Table;
use fare_law::{List, Mem};
use indexmap::IndexMap;
use residual_table::ResidualKey;
use search_steps::{LeastMove, SearchSteps};
use std::alloc::Global;

/// The least moves of a residual, as many as were wanted.
#[derive(Drop)]
pub struct Drawing {
    pub key: ResidualKey,
    pub wanted: usize,
    pub moves: List<LeastMove<ResidualKey>>,
}

/// The least moves of the residuals that were asked for so far.
#[derive(Drop)]
pub struct Drawings {
    alloc: Global,
    pub kept: Vec<Drawing>,
    /// Where those of a residual may stand.
    places: IndexMap<ResidualKey, usize>,
}

impl Drawings {
    /// None yet.
    pub fn new(alloc: Global) -> Drawings
        ensures { result.kept.items ≡ [] }
    {
        Drawings {
            alloc,
            kept: Vec::new(alloc),
            places: IndexMap::new(alloc),
        }
    }

    /// Where the least moves of a residual stand, at least as many as are wanted. They are drawn where too few are known,
    /// and then at least twice as many as before, so that a residual is seldom asked for again.
    pub fn find(
        &mut self,
        steps: &mut SearchSteps,
        table: &Table,
        key: ResidualKey,
        wanted: usize,
    ) -> Result<usize, Mem>
        requires request { IsRequest steps.old.case.request.now }
        requires differ { AllDifferent (map (λ row. row.residual) table.now.rows.now) }
        requires table { HasRows steps.old table.now.bounds table.now.rows.now }
        requires live { live steps.old key }
        requires drawings { AreDrawings steps.old table.now.rows.now self.old.kept.items }
        ensures drawings { OnOk result (AreDrawings steps.new table.now.rows.now self.new.kept.items) }
        ensures found { IfOk result (HasDrawing steps.old.case.book.now steps.old.case.request.now table.now.rows.now (state steps.old key) wanted self.new.kept.items) }
        ensures later { IsLater steps.old steps.new }
    {
        steps.keys_tell();
        if let Some(place) = place_of(self.kept.as_slice(), &self.places, key, wanted) {
            return Ok(place);
        }
        let wanted = more_than(self.kept.as_slice(), &self.places, key, wanted);
        let moves = steps.least_moves(self.alloc, key, &table.bounds, wanted)?;
        let place = self.kept.len();
        self.places.insert(key, place)?;
        self.kept.push(Drawing { key, wanted, moves })?;
        Ok(place)
    }
}

/// Where the least moves of a residual stand, if as many as are wanted are known.
fn place_of(
    kept: &[Drawing],
    places: &IndexMap<ResidualKey, usize>,
    key: ResidualKey,
    wanted: usize,
) -> Option<usize>
    ensures { IfSome result (IsEnough ⟦<ResidualKey as PartialEq>⟧.eq key wanted kept.now) }
{
    let place = places.get(&key).copied()?;
    let drawing = kept.get(place)?;
    if key == drawing.key && wanted <= drawing.wanted {
        Some(place)
    } else {
        None
    }
}

/// How many to draw where so many are wanted: at least twice as many as are known.
fn more_than(
    kept: &[Drawing],
    places: &IndexMap<ResidualKey, usize>,
    key: ResidualKey,
    wanted: usize,
) -> usize
    ensures { wanted ≤ result }
{
    let known = match places.get(&key).copied() {
        Some(place) => kept.get(place),
        None => None,
    };
    match known {
        Some(drawing) => wanted.max(drawing.wanted.saturating_mul(2)),
        None => wanted,
    }
}
