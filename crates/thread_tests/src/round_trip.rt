//! There and back by two flights, and three fares, of which the one of kind R costs 40000 there and back. The search reaches
//! three residuals.
ghost use Rattle.std.specs.Prelude.{IfOk};
ghost use Rattle.std.specs.Arc.{arc_value};
ghost use Rattle.fare_law.specs.FilingLimits.{IsFiling};

use crate::books;
use crate::filings::{LON, NYC, QX, Y, fare_key, filing, put, seats};
use fare_book::Book;
use fare_law::{ArrayVec, FareKind, Filing, FlightRow, List, Mem, PlaceRow, Request, Slice};
use schedule_book::Schedule;
use std::alloc::Global;
use std::sync::Arc;
use std::test::Fail;

const PLACES: [PlaceRow; 2] = [
    PlaceRow {
        line: 1,
        place: LON,
        connect: 60,
    },
    PlaceRow {
        line: 2,
        place: NYC,
        connect: 60,
    },
];

/// On 2031-03-03 from 10:00 to 13:00, and a week later from 18:00 to 6:00 of the day after.
const FLIGHTS: [FlightRow; 2] = [
    FlightRow {
        line: 1,
        carrier: QX,
        number: 101,
        from: LON,
        to: NYC,
        dep: 600,
        dep_offset: 0,
        arr: 780,
        arr_offset: -300,
        shift: 0,
        first: 22341,
        last: 22341,
        days: 1,
    },
    FlightRow {
        line: 2,
        carrier: QX,
        number: 102,
        from: NYC,
        to: LON,
        dep: 1080,
        dep_offset: -240,
        arr: 360,
        arr_offset: 0,
        shift: 1,
        first: 22348,
        last: 22348,
        days: 1,
    },
];

/// The book of the flights, with one filing.
pub fn book(alloc: Global) -> Result<Book, Fail> {
    let empty = empty(alloc)?;
    books::filed(alloc, &empty, fares(alloc)?)
}

/// The book of the flights with nine seats each in class Y and no fare.
pub fn empty(alloc: Global) -> Result<Book, Fail> {
    let schedule = Schedule::build(alloc, &PLACES, &FLIGHTS)?;
    let rows = [
        seats(QX, 101, LON, [0, 0, 9]),
        seats(QX, 102, NYC, [0, 0, 9]),
    ];
    books::empty(alloc, schedule, &rows)
}

/// The fares R and Y there, and the fare Z back.
fn fares(alloc: Global) -> Result<Arc<Filing>, Mem>
    ensures { IfOk result (λ filing. IsFiling (arc_value filing)) }
{
    let there = put(fare_key(QX, LON, NYC, b'R'), Y, FareKind::R, 40000, 0);
    let full = put(fare_key(QX, LON, NYC, b'Y'), Y, FareKind::O, 25000, 0);
    let back = put(fare_key(QX, NYC, LON, b'Z'), Y, FareKind::O, 24000, 0);
    filing(alloc, List::from_vec(vec![in alloc; there, full, back]?))
}

/// There and back for so many, and four tickets at most.
pub fn request(party: u8) -> Request {
    there_and_back(22348, 22311, party, 4)
}

/// To New York on one Monday and back on a day, sold on a day, for so many and with so many tickets at most.
pub fn there_and_back(back: i32, sale: i32, party: u8, best: u16) -> Request {
    let mut slices = ArrayVec::new();
    slices.push(Slice {
        from: LON,
        to: NYC,
        first: 22341,
        days: 1,
    });
    slices.push(Slice {
        from: NYC,
        to: LON,
        first: back,
        days: 1,
    });
    Request {
        sale,
        party,
        best,
        slices,
    }
}
