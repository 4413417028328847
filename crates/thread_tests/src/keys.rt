//! A key of one leg and one row.
ghost use Rattle.std.specs.Prelude.{IfOk};
ghost use Rattle.fare_component.specs.Keys.{IsKey};

use crate::filings::{LON, NYC, QX, Y};
use fare_law::{
    ArrayVec, Basis, Fare, FareKey, FareKind, Flight, Leg, List, MarketSheet, Mem, OfferKey, Rule,
    Shared, SheetRow,
};
use std::alloc::Global;
use std::sync::Arc;

/// QX 101 on 2031-03-03.
const FLIGHT: Flight = Flight {
    carrier: QX,
    number: 101,
    from: LON,
    to: NYC,
    day: 22341,
    minute: 600,
    dep: 32171640,
    arr: 32172120,
};

/// The key of that flight with seats in class Y, and a sheet of one fare.
pub fn key(alloc: Global) -> Result<OfferKey, Mem>
    ensures { IfOk result IsKey }
{
    let mut legs = ArrayVec::new();
    legs.push(Leg {
        flight: FLIGHT,
        classes: 1 << 24,
    });
    let mut letters = ArrayVec::new();
    letters.push(b'Y');
    let mut rows = List::new(alloc);
    rows.push(SheetRow {
        fare: Fare {
            key: FareKey {
                carrier: QX,
                from: LON,
                to: NYC,
                basis: Basis(letters),
            },
            class: Y,
            kind: FareKind::O,
            amount: 20000,
            rule: 0,
        },
        rule: Shared::new(alloc, Rule::default())?,
    })?;
    let sheet = MarketSheet::of(alloc, LON, NYC, rows)?;
    Ok(OfferKey {
        legs,
        sheet: Arc::new(alloc, sheet)?,
    })
}
