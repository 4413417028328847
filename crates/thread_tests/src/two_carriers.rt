//! Six flights of two carriers, two of them a connection each way: three tickets are asked for, and the search reaches six
//! residuals.
ghost use Rattle.std.specs.Prelude.{IfOk};
ghost use Rattle.std.specs.Arc.{arc_value};
ghost use Rattle.fare_law.specs.FilingLimits.{IsAction, IsFiling};
ghost use Rattle.fare_law.specs.Names.{IsCarrier};
ghost use Rattle.fare_law.specs.RuleLimits.{IsRule};

use crate::books;
use crate::filings::{LON, NYC, Y, fare_key, filing, put, seats};
use crate::round_trip::there_and_back;
use fare_book::Book;
use fare_law::{
    Action, ArrayVec, Carrier, CombineRule, EndOnEnd, FareKind, Filing, FlightRow, List, Mem,
    MinStay, Partners, Place, PlaceRow, Request, Rule, SeatRow, Shared, TransferRule, UnitKind,
};
use schedule_book::Schedule;
use std::alloc::Global;
use std::sync::Arc;
use std::test::Fail;

const DUB: Place = Place(*b"DUB");

const BX: Carrier = Carrier(*b"BX");

pub const EX: Carrier = Carrier(*b"EX");

/// The class Q.
const Q: u8 = 16;

const PLACES: [PlaceRow; 3] = [
    PlaceRow {
        line: 1,
        place: LON,
        connect: 60,
    },
    PlaceRow {
        line: 2,
        place: DUB,
        connect: 45,
    },
    PlaceRow {
        line: 3,
        place: NYC,
        connect: 90,
    },
];

/// On Monday 2031-03-03 from 11:00 to 14:00.
const THERE: FlightRow = FlightRow {
    line: 1,
    carrier: BX,
    number: 11,
    from: LON,
    to: NYC,
    dep: 660,
    dep_offset: 0,
    arr: 840,
    arr_offset: -300,
    shift: 0,
    first: 22341,
    last: 22341,
    days: 1,
};

/// On Wednesday 2031-03-12 from 19:00 to 6:30 of the day after.
const BACK: FlightRow = FlightRow {
    line: 2,
    carrier: BX,
    number: 12,
    from: NYC,
    to: LON,
    dep: 1140,
    dep_offset: -240,
    arr: 390,
    arr_offset: 0,
    shift: 1,
    first: 22350,
    last: 22350,
    days: 4,
};

const FLIGHTS: [FlightRow; 6] = [
    THERE,
    FlightRow {
        carrier: EX,
        number: 201,
        to: DUB,
        dep: 420,
        arr: 495,
        arr_offset: 0,
        ..THERE
    },
    FlightRow {
        carrier: EX,
        number: 101,
        from: DUB,
        dep: 600,
        arr: 750,
        ..THERE
    },
    BACK,
    FlightRow {
        carrier: EX,
        number: 102,
        to: DUB,
        dep: 1050,
        arr: 285,
        ..BACK
    },
    FlightRow {
        carrier: EX,
        number: 202,
        from: DUB,
        dep: 390,
        dep_offset: 0,
        arr: 465,
        shift: 0,
        first: 22351,
        last: 22351,
        days: 8,
        ..BACK
    },
];

/// The book of the flights, with one filing.
pub fn book(alloc: Global) -> Result<Book, Fail> {
    let schedule = Schedule::build(alloc, &PLACES, &FLIGHTS)?;
    let empty = books::empty(alloc, schedule, &all_seats())?;
    books::filed(alloc, &empty, rules_and_fares(alloc)?)
}

fn all_seats() -> [SeatRow; 6] {
    [
        seats(BX, 11, LON, [4, 2, 9]),
        seats(EX, 201, LON, [0, 9, 9]),
        seats(EX, 101, DUB, [0, 9, 9]),
        seats(BX, 12, NYC, [4, 1, 9]),
        seats(EX, 102, NYC, [0, 4, 9]),
        seats(EX, 202, DUB, [0, 9, 9]),
    ]
}

/// A rule and two fares of each carrier, the one on the rule and the other on none.
fn rules_and_fares(alloc: Global) -> Result<Arc<Filing>, Mem>
    ensures { IfOk result (λ filing. IsFiling (arc_value filing)) }
{
    let ours = rule_put(alloc, BX, round_trips())?;
    let theirs = rule_put(alloc, EX, online())?;
    let actions = vec![in alloc;
        ours,
        theirs,
        put(fare_key(BX, LON, NYC, b'Q'), Q, FareKind::R, 42000, 1),
        put(fare_key(BX, LON, NYC, b'Y'), Y, FareKind::R, 90000, 0),
        put(fare_key(EX, LON, NYC, b'Q'), Q, FareKind::R, 36000, 1),
        put(fare_key(EX, LON, NYC, b'Y'), Y, FareKind::O, 30000, 0),
    ]?;
    filing(alloc, List::from_vec(actions))
}

/// The rule 1 of a carrier is put.
fn rule_put(alloc: Global, carrier: Carrier, rule: Rule) -> Result<Action, Mem>
    requires carrier { IsCarrier carrier }
    requires rule { IsRule rule }
    ensures { IfOk result IsAction }
{
    Ok(Action::PutRule(carrier, 1, Shared::new(alloc, rule)?))
}

/// Round trips over a Sunday and of at most 30 days, bought 14 days before, with a partner of the same carrier.
fn round_trips() -> Rule
    ensures { IsRule result }
{
    let mut kinds = ArrayVec::new();
    kinds.push(UnitKind::RoundTrip);
    Rule {
        cat5: Some(14),
        cat6: Some(MinStay {
            days: 0,
            sunday: true,
        }),
        cat7: Some(30),
        cat10: Some(CombineRule {
            kinds,
            partners: Partners::SameCarrier,
            end_on_end: EndOnEnd::Free,
        }),
        ..Rule::default()
    }
}

/// Stays of three days at least and over a Sunday, bought 7 days before, with one transfer at most and all flights of the carrier.
fn online() -> Rule
    ensures { IsRule result }
{
    Rule {
        cat5: Some(7),
        cat6: Some(MinStay {
            days: 3,
            sunday: true,
        }),
        cat9: Some(TransferRule {
            max: 1,
            online: true,
        }),
        ..Rule::default()
    }
}

/// There and back for two, and three tickets at most.
pub fn request() -> Request {
    there_and_back(22350, 22320, 2, 3)
}
