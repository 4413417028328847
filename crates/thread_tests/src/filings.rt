//! Filings of a few fares, and rows of seats.
ghost use Rattle.std.specs.Prelude.{◌≤◌, length, IfOk};
ghost use Rattle.std.specs.Arc.{arc_value};
ghost use Rattle.fare_law.specs.FilingLimits.{IsAction, IsFiling};
ghost use Rattle.fare_law.specs.Limits.{IsFareKey, IsPlace};
ghost use Rattle.fare_law.specs.Lists.{Each};
ghost use Rattle.fare_law.specs.Names.{IsCarrier};

use fare_law::{
    Action, ArrayVec, Basis, BookWhy, Carrier, Fare, FareKey, FareKind, Filing, List, Mem, Place,
    Refused, SeatRow,
};
use std::alloc::Global;
use std::sync::Arc;

pub const QX: Carrier = Carrier(*b"QX");

pub const LON: Place = Place(*b"LON");

pub const NYC: Place = Place(*b"NYC");

/// The class Y.
pub const Y: u8 = 24;

/// Why a filing is refused whose first action drops a fare that isn't there.
pub const NO_FARE: Refused = Refused {
    action: 1,
    why: BookWhy::NoFare,
};

/// The seats of all days of a flight in the classes J, Q and Y.
pub fn seats(carrier: Carrier, number: u16, from: Place, [j, q, y]: [u8; 3]) -> SeatRow {
    let mut seats = [0; 32];
    seats[9] = j;
    seats[16] = q;
    seats[24] = y;
    SeatRow {
        line: 1,
        carrier,
        number,
        from,
        day: None,
        seats,
    }
}

/// The key of a fare with a basis of one letter.
pub fn fare_key(carrier: Carrier, from: Place, to: Place, letter: u8) -> FareKey
    requires carrier { IsCarrier carrier }
    requires from { IsPlace from }
    requires to { IsPlace to }
    requires letter { (65 ≤ letter) × (letter ≤ 90) }
    ensures { IsFareKey result }
{
    let mut basis = ArrayVec::new();
    basis.push(letter);
    FareKey {
        carrier,
        from,
        to,
        basis: Basis(basis),
    }
}

/// The fare of this key is put, on a rule of its carrier.
pub fn put(key: FareKey, class: u8, kind: FareKind, amount: u64, rule: u16) -> Action
    requires key { IsFareKey key }
    requires class { class ≤ 25 }
    requires amount { amount ≤ 1000000000 }
    requires rule { rule ≤ 9999 }
    ensures { IsAction result }
{
    Action::PutFare(Fare {
        key,
        class,
        kind,
        amount,
        rule,
    })
}

/// A filing of a few actions.
pub fn filing(alloc: Global, actions: List<Action>) -> Result<Arc<Filing>, Mem>
    requires few { length actions ≤ 5000 }
    requires each { Each IsAction actions }
    ensures { IfOk result (λ filing. IsFiling (arc_value filing)) }
{
    Ok(Arc::new(alloc, Filing { actions })?)
}

/// A filing of one action.
pub fn filing_of(alloc: Global, action: Action) -> Result<Arc<Filing>, Mem>
    requires { IsAction action }
    ensures { IfOk result (λ filing. IsFiling (arc_value filing)) }
{
    let mut actions = List::new(alloc);
    actions.push(action)?;
    filing(alloc, actions)
}
