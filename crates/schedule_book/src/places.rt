//! The places of a timetable.
ghost use Rattle.std.specs.Prelude.{◌≡◌, ◌↔◌, IfOk, IfErr, OnOk, IsTrue};
ghost use Rattle.schedule_book.specs.Connects.{Connects, connect_of};
ghost use Rattle.schedule_book.specs.Faults.{IsKnown, PlaceCause, PlacesDiffer};

use crate::SchedFault;
use fare_law::{List, Place, PlaceRow};
use std::alloc::Global;
use std::collections::HashMap;
use std::marker::Model;

/// The rows of places, found by place.
#[derive(Drop)]
pub struct Places {
    rows: List<PlaceRow>,
    connects: HashMap<Place, u16>,
}

impl Model for Places {
    ghost use Rattle.std.specs.Prelude.{List as Items};
    ghost use Rattle.fare_law.specs.contracts.names.PlacePartialEq.TheImpl as place;
    ghost use Rattle.fare_law.specs.declared.rows.PlaceRow.{PlaceRow};
    ghost use Rattle.schedule_book.specs.Connects.{Connects};

    ghost Value = { Items PlaceRow };

    ghost view = { λ p. p.rows };

    ghost invariant = { λ p. Connects place.ghosts.eq p.rows p.connects };
}

impl Places {
    /// The places of these rows. A place that stands twice is refused.
    pub fn of(alloc: Global, rows: &[PlaceRow]) -> Result<Places, SchedFault>
        ensures rows { IfOk result (λ places. places ≡ rows.now) }
        ensures differ { OnOk result (PlacesDiffer rows.now) }
        ensures fault { IfErr result (PlaceCause rows.now) }
    {
        let connects = connects_of(alloc, rows)?;
        let rows = List::from_vec(rows.to_vec(alloc)?);
        Ok(Places { rows, connects })
    }

    /// The least connect time of a place, in minutes. None where the place is unknown.
    pub fn connect(&self, place: Place) -> Option<u16>
        ensures { result ≡ connect_of self.now place }
    {
        self.connects.get(&place).copied()
    }

    /// Whether a place has a row.
    pub fn knows(&self, place: Place) -> bool
        ensures { IsTrue result ↔ IsKnown place self.now }
    {
        self.connect(place).is_some()
    }
}

/// The least connect times of places, by place.
fn connects_of(alloc: Global, rows: &[PlaceRow]) -> Result<HashMap<Place, u16>, SchedFault>
    ensures connects { IfOk result (Connects ⟦<Place as PartialEq>⟧.eq rows.now) }
    ensures differ { OnOk result (PlacesDiffer rows.now) }
    ensures fault { IfErr result (PlaceCause rows.now) }
{
    let mut connects = HashMap::new(alloc);
    for row in rows {
        let old = connects.insert(row.place, row.connect)?;
        if old.is_some() {
            return Err(SchedFault::PlaceTwice { line: row.line });
        }
    }
    Ok(connects)
}
