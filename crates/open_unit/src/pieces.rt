//! The roles of a component, by its piece.
ghost use Rattle.std.specs.Prelude.{◌≡◌, ◌↔◌, IsTrue, IsSome, IfSome, IfNone};
ghost use Rattle.fare_law.specs.declared.rules.UnitKind.{UnitKind as Kind};
ghost use Rattle.open_unit.specs.OpenUnits.{MayAlone, MayOpen, MayGoOn, MayClose, opened, gone_on};
ghost use Rattle.open_unit.specs.Ranges.{PieceInRanges, UnitInRanges};

use crate::{Facts, OpenUnit};
use fare_law::{Piece, UnitKind};

impl OpenUnit {
    /// Whether the component may be a unit of its own: a one way.
    pub fn alone(piece: &Piece) -> bool
        requires { PieceInRanges piece.now }
        ensures { IsTrue result ↔ MayAlone piece.now }
    {
        OpenUnit::alone_by(&Facts::of(piece))
    }

    /// The unit that the component opens, or none where it may not be the first of several.
    pub fn first(piece: &Piece) -> Option<OpenUnit>
        requires { PieceInRanges piece.now }
        ensures opens { IsSome result ↔ MayOpen piece.now }
        ensures unit { IfSome result (λ u. u ≡ opened piece.now) }
        ensures in_ranges { IfSome result UnitInRanges }
    {
        OpenUnit::first_by(&Facts::of(piece))
    }

    /// The unit after the component, or none where it may not go on in this unit: a circle.
    pub fn go_on(&self, piece: &Piece) -> Option<OpenUnit>
        requires unit { UnitInRanges self.now }
        requires piece { PieceInRanges piece.now }
        ensures goes_on { IsSome result ↔ MayGoOn self.now piece.now }
        ensures unit { IfSome result (λ u. u ≡ gone_on self.now piece.now) }
        ensures in_ranges { IfSome result UnitInRanges }
    {
        self.go_on_by(&Facts::of(piece))
    }

    /// The kind of the unit that the component closes, or none where it may not close this unit.
    pub fn close(&self, piece: &Piece) -> Option<UnitKind>
        requires unit { UnitInRanges self.now }
        requires piece { PieceInRanges piece.now }
        ensures closes { IfSome result (λ kind. MayClose self.now piece.now kind) }
        ensures else_none { IfNone result ((kind : Kind) → MayClose self.now piece.now kind → ⊥) }
    {
        self.close_by(&Facts::of(piece))
    }
}
