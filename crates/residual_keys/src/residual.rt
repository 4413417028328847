//! Residuals: what the rest of a search depends on.
use crate::TicketPart;
use fare_law::Move;
use flight_paths::Position;
use open_unit::OpenUnit;
use std::marker::Model;

/// What the rest of a search depends on. Ordered field by field.
#[derive(Clone, Copy, PartialEq, Eq, PartialOrd, Ord, Debug)]
pub struct Residual {
    pub at: Position,
    /// The open unit that was opened first.
    pub unit1: Option<OpenUnit>,
    /// The other one: None where `unit1` is.
    pub unit2: Option<OpenUnit>,
    pub part: TicketPart,
}

impl Model for Residual {
    ghost use Rattle.std.specs.Prelude.{slice_get};
    ghost use Rattle.residual_keys.specs.Residuals.{State};
    ghost use Rattle.residual_keys.specs.Kept.{AreKept, open_units};

    ghost Value = { State };

    ghost view = { λ r. record { at = r.at; units = open_units r.unit1 r.unit2; part = r.part } };

    ghost invariant = { λ r. AreKept r.unit1 r.unit2 r.part };

    ghost inverse = { λ x. record { at = x.at; unit1 = slice_get x.units 0; unit2 = slice_get x.units 1; part = x.part } };
}

/// What a move leaves.
#[derive(Clone, Copy)]
pub enum Next {
    At(Residual),
    /// The journey is complete, and no unit is open.
    Done,
}

/// A move of a residual, with its price and what it leaves.
#[derive(Drop)]
pub struct Chosen {
    pub mv: Move,
    pub price: u64,
    pub next: Next,
}
