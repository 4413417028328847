//! The lists of positions and of open units by numbers.
ghost use Rattle.std.specs.Prelude.{◌≡◌, []};
ghost use Rattle.residual_table.specs.Keys.{no_tables};

use crate::guesses::Guesses;
use fare_law::{Carrier, EndOnEnd};
use residual_table::ResidualParts;
use std::alloc::Global;

/// A mark of a list with its price, by numbers.
#[derive(Clone, Copy)]
pub struct Step {
    /// The slot of the position to which it leads: 0 where the journey is complete.
    pub after: u32,
    /// The slot of the unit that it opens or goes on with: 0 where there is none.
    pub unit: u32,
    pub carrier: Carrier,
    pub ends: EndOnEnd,
    pub price: u64,
}

/// What the components of a position are where they stand alone or open a unit.
#[derive(Drop)]
pub struct PositionSteps {
    /// The number of the position.
    pub position: u32,
    /// Where its table stands.
    pub place: usize,
    pub alone: Vec<Step>,
    pub opening: Vec<Step>,
    /// For each entry of the table its mark where it leaves no unit open.
    pub bare: Vec<Step>,
    /// For each entry how many of its run there are from it on.
    pub runs: Vec<u16>,
}

/// What they are where they go on in an open unit or close it: a part of the steps of all open units.
#[derive(Clone, Copy)]
pub struct UnitSteps {
    /// Where the table of the position stands.
    pub place: usize,
    pub slot: u32,
    /// Where its steps begin, and where they end.
    pub begin: usize,
    pub end: usize,
}

/// What the list of an open unit is looked up by.
#[derive(Clone, Copy)]
pub struct UnitSlot {
    pub place: usize,
    pub slot: u32,
}

/// The lists that were asked for so far, and the numbers that they consist of.
#[derive(Drop)]
pub struct StepLists {
    pub numbers: ResidualParts,
    pub positions: Vec<PositionSteps>,
    /// Where the lists of a position may stand, by its number.
    pub places: Guesses,
    pub units: Vec<UnitSteps>,
    /// The steps of the lists of open units, one list after another.
    pub unit_steps: Vec<Step>,
    /// What the list of an open unit is made in, before it stands among them.
    pub made: Vec<Step>,
    /// Where the list of an open unit stands, by the spots of its slot.
    pub unit_places: Guesses,
}

impl StepLists {
    /// None yet.
    pub fn new(alloc: Global) -> StepLists
        ensures numbers { result.numbers ≡ no_tables }
        ensures positions { result.positions.items ≡ [] }
        ensures units { result.units.items ≡ [] }
    {
        StepLists {
            numbers: ResidualParts::new(alloc),
            positions: Vec::new(alloc),
            places: Guesses::new(alloc),
            units: Vec::new(alloc),
            unit_steps: Vec::new(alloc),
            made: Vec::new(alloc),
            unit_places: Guesses::new(alloc),
        }
    }

    /// None yet, over numbers that there are.
    pub fn over(alloc: Global, numbers: ResidualParts) -> StepLists
        ensures numbers { result.numbers ≡ numbers }
        ensures positions { result.positions.items ≡ [] }
        ensures units { result.units.items ≡ [] }
    {
        StepLists {
            numbers,
            positions: Vec::new(alloc),
            places: Guesses::new(alloc),
            units: Vec::new(alloc),
            unit_steps: Vec::new(alloc),
            made: Vec::new(alloc),
            unit_places: Guesses::new(alloc),
        }
    }

    /// Lets go the lists. The numbers stay.
    pub fn let_go(&mut self, alloc: Global)
        ensures numbers { self.new.numbers ≡ self.old.numbers }
        ensures positions { self.new.positions.items ≡ [] }
        ensures units { self.new.units.items ≡ [] }
    {
        self.positions = Vec::new(alloc);
        self.places = Guesses::new(alloc);
        self.units = Vec::new(alloc);
        self.unit_steps = Vec::new(alloc);
        self.unit_places = Guesses::new(alloc);
    }
}
