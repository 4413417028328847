//! The kinds of the units that are closed.
ghost use Rattle.std.specs.Prelude.{◌≡◌, ◌↔◌};
ghost use Rattle.fare_law.specs.declared.rules.UnitKind.{UnitKind as Kind};
ghost use Rattle.open_unit.specs.OpenUnits.{Makes};

use crate::{Facts, OpenUnit};
use fare_law::UnitKind;

/// The kind of the unit that the open one and its last component make, if they make one.
pub fn kind_made(unit: &OpenUnit, last: &Facts<'_>) -> Option<UnitKind>
    ensures { (kind : Kind) → (result ≡ Some kind) ↔ Makes unit.now last.now kind }
{
    let joins = last.begin.is(unit.end);
    let returns = last.end.is(unit.origin);
    match unit.count {
        1 if joins && returns => Some(UnitKind::RoundTrip),
        1 if joins != returns => Some(UnitKind::OpenJaw),
        2 | 3 if joins && returns => Some(UnitKind::Circle),
        _ => None,
    }
}
