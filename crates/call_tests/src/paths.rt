//! Paths of a search of six flights, two of them a connection each way.
ghost use Rattle.std.specs.Prelude.{◌≡◌, ◌<◌, length};

use fare_law::{ArrayVec, Carrier, FlightRow, Place, PlaceRow, Request, Slice};
use flight_paths::{Path, Position, component_paths, root_position, slice_paths};
use schedule_book::Schedule;
use std::alloc::Global;
use std::test::Fail;

const LON: Place = Place(*b"LON");

const DUB: Place = Place(*b"DUB");

const NYC: Place = Place(*b"NYC");

const PLACES: [PlaceRow; 3] = [
    PlaceRow {
        line: 2,
        place: LON,
        connect: 60,
    },
    PlaceRow {
        line: 3,
        place: DUB,
        connect: 45,
    },
    PlaceRow {
        line: 4,
        place: NYC,
        connect: 90,
    },
];

/// From London to Dublin on a Monday morning.
const ROW: FlightRow = FlightRow {
    line: 7,
    carrier: Carrier(*b"EX"),
    number: 201,
    from: LON,
    to: DUB,
    dep: 420,
    dep_offset: 0,
    arr: 495,
    arr_offset: 0,
    shift: 0,
    first: 22341,
    last: 22341,
    days: 1,
};

/// A connection of EX and a flight of BX, out on a Monday and back on a Wednesday.
const ROWS: [FlightRow; 6] = [
    FlightRow {
        carrier: Carrier(*b"BX"),
        number: 11,
        to: NYC,
        dep: 660,
        arr: 840,
        arr_offset: -300,
        ..ROW
    },
    ROW,
    FlightRow {
        number: 101,
        from: DUB,
        to: NYC,
        dep: 600,
        arr: 750,
        arr_offset: -300,
        ..ROW
    },
    FlightRow {
        carrier: Carrier(*b"BX"),
        number: 12,
        from: NYC,
        to: LON,
        dep: 1140,
        dep_offset: -240,
        arr: 390,
        shift: 1,
        first: 22350,
        last: 22350,
        days: 4,
        ..ROW
    },
    FlightRow {
        number: 102,
        from: NYC,
        dep: 1050,
        dep_offset: -240,
        arr: 285,
        shift: 1,
        first: 22350,
        last: 22350,
        days: 4,
        ..ROW
    },
    FlightRow {
        number: 202,
        from: DUB,
        to: LON,
        dep: 390,
        arr: 465,
        first: 22351,
        last: 22351,
        days: 8,
        ..ROW
    },
];

/// There on the Monday and back on the Wednesday of the week after, for two.
fn request() -> Request
    ensures { length result.slices ≡ 2 }
{
    let mut slices = ArrayVec::new();
    slices.push(Slice {
        from: LON,
        to: NYC,
        first: 22341,
        days: 1,
    });
    slices.push(Slice {
        from: NYC,
        to: LON,
        first: 22350,
        days: 1,
    });
    Request {
        sale: 22320,
        party: 2,
        best: 3,
        slices,
    }
}

/// The flights that are flown, by their numbers.
fn flights(alloc: Global) -> Result<Schedule, Fail> {
    Ok(Schedule::build(alloc, &PLACES, &ROWS)?)
}

/// Whether each list is that of its place.
fn are(lists: &[ArrayVec<u32, 3>], expected: &[&[u32]]) -> bool {
    lists.len() == expected.len()
        && lists
            .iter()
            .zip(expected.iter())
            .all(|(list, numbers)| list.as_slice() == *numbers)
}

/// Whether the paths of a slice are these.
fn has_paths(
    alloc: Global,
    schedule: &Schedule,
    slice: u8,
    expected: &[&[u32]],
) -> Result<bool, Fail>
    requires { slice < 2 }
{
    let paths = slice_paths(alloc, schedule, &request(), slice)?;
    Ok(are(paths.as_slice(), expected))
}

/// Whether the paths of both slices are as they are worked out by hand.
fn have_paths(alloc: Global) -> Result<[bool; 2], Fail> {
    let schedule = flights(alloc)?;
    Ok([
        has_paths(alloc, &schedule, 0, &[&[2], &[0, 1]])?,
        has_paths(alloc, &schedule, 1, &[&[4], &[3, 5]])?,
    ])
}

#[test]
fn gives_the_flights_of_a_slice(rt: HostRuntime) -> Result<(), Fail> {
    assert_eq!(rt; have_paths(rt.alloc())?, [true; 2]);
    Ok(())
}

/// A position inside the slice after its first flight, at Dublin.
fn at_dublin(slice: u8, lo: u32, hi: u32) -> Option<Position> {
    Some(Position {
        slice,
        leg: 1,
        place: DUB,
        via: None,
        lo,
        hi,
    })
}

/// A position before a slice, at which no flight was taken.
fn before(slice: u8, place: Place, lo: u32, hi: u32) -> Position
    ensures { result.slice ≡ slice }
{
    Position {
        slice,
        leg: 0,
        place,
        via: None,
        lo,
        hi,
    }
}

/// Whether each path has these flights and leads there.
fn lead(paths: &[Path], expected: &[(&[u32], Option<Position>)]) -> bool {
    paths.len() == expected.len()
        && paths.iter().zip(expected.iter()).all(|(path, (numbers, after))| {
            path.flights.as_slice() == *numbers && path.after == *after
        })
}

/// Whether the paths of a position have these flights and lead there.
fn leads(
    alloc: Global,
    schedule: &Schedule,
    position: &Position,
    expected: &[(&[u32], Option<Position>)],
) -> Result<bool, Fail>
    requires { position.now.slice < 2 }
{
    let paths = component_paths(alloc, schedule, &request(), position)?;
    Ok(lead(paths.as_slice(), expected))
}

/// Whether the root is before the first slice, and the paths of it and of the position before the slice back are as they are worked
/// out by hand.
fn lead_on(alloc: Global) -> Result<[bool; 3], Fail> {
    let schedule = flights(alloc)?;
    let (root, home) = (before(0, LON, 0, 3), before(1, NYC, 3, 5));
    let out = [
        (&[0][..], at_dublin(0, 1, 2)),
        (&[2], Some(home)),
        (&[0, 1], Some(home)),
        (&[2, 3], at_dublin(1, 5, 6)),
    ];
    let back = [
        (&[3][..], at_dublin(1, 5, 6)),
        (&[4], None),
        (&[3, 5], None),
    ];
    Ok([
        root_position(&schedule, &request()) == root,
        leads(alloc, &schedule, &root, &out)?,
        leads(alloc, &schedule, &home, &back)?,
    ])
}

#[test]
fn gives_the_paths_of_a_position(rt: HostRuntime) -> Result<(), Fail> {
    assert_eq!(rt; lead_on(rt.alloc())?, [true; 3]);
    Ok(())
}
