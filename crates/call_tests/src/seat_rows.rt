//! As many rows of seats as there may be.
use fare_law::{Carrier, Flight, Place, SeatKey, SeatRow};
use seat_classes::{SeatPut, Seats};
use std::alloc::Global;
use std::test::Fail;

const LON: Place = Place(*b"LON");

const NYC: Place = Place(*b"NYC");

const QX: Carrier = Carrier(*b"QX");

fn seats(j: u8, y: u8) -> [u8; 32] {
    let mut seats = [0; 32];
    seats[9] = j;
    seats[24] = y;
    seats
}

/// A row of flight QX 101 from London.
fn row(line: u32, day: Option<i32>, seats: [u8; 32]) -> SeatRow {
    SeatRow {
        line,
        carrier: QX,
        number: 101,
        from: LON,
        day,
        seats,
    }
}

fn key(day: Option<i32>) -> SeatKey {
    SeatKey {
        carrier: QX,
        number: 101,
        from: LON,
        day,
    }
}

/// Flight QX 101 from London on a day.
fn flight(day: i32) -> Flight {
    Flight {
        carrier: QX,
        number: 101,
        from: LON,
        to: NYC,
        day,
        minute: 600,
        dep: i64::from(day) * 1440 + 600,
        arr: i64::from(day) * 1440 + 1080,
    }
}

/// Puts these seats into the row of a day, or of all days.
fn put(alloc: Global, held: &mut Seats, day: Option<i32>, seats: [u8; 32]) -> Result<(), SeatPut> {
    held.put(alloc, &key(day), &seats)
}

/// How many rows there are, and the seats of the flight of a day.
fn told(held: &Seats, day: i32) -> (u32, [u8; 32]) {
    (held.count(), held.seats_of(&flight(day)))
}

/// A row for each of 199,999 days.
fn many_rows(alloc: Global) -> Result<Vec<SeatRow>, Fail> {
    let mut rows = Vec::new(alloc);
    for i in 0u32..199_999 {
        rows.push(row(i + 2, Some(i as i32), seats(1, 1)))?;
    }
    Ok(rows)
}

/// As many rows as there may be: those of 199,999 days, and the row of all days.
fn full(alloc: Global) -> Result<Seats, Fail> {
    let rows = many_rows(alloc)?;
    if rows.len() != 199_999 {
        return Err(Fail::new("other rows"));
    }
    let mut held = Seats::build(alloc, rows.as_slice())?;
    put(alloc, &mut held, None, seats(2, 2))?;
    Ok(held)
}

/// Whether this comes of a put of these seats on a day, and then of all days' seats or of those on that day.
fn comes(
    alloc: Global,
    held: &mut Seats,
    day: i32,
    seats: [u8; 32],
    expected: (Result<(), SeatPut>, (u32, [u8; 32])),
) -> bool {
    let came = put(alloc, held, Some(day), seats);
    (came, told(held, day)) == expected
}

/// Whether a row of a day that has none isn't taken, seats are put anew into a row that is there, and the first is taken once another is
/// dropped, whose day then has the seats of all days.
fn is_kept_full(alloc: Global, held: &mut Seats) -> [bool; 5] {
    let all = seats(2, 2);
    let (beside, within) = (seats(3, 3), seats(5, 5));
    [
        comes(
            alloc,
            held,
            199_999,
            beside,
            (Err(SeatPut::Full), (200_000, all)),
        ),
        comes(alloc, held, 7, within, (Ok(()), (200_000, within))),
        held.drop_row(&key(Some(8))),
        comes(alloc, held, 199_999, beside, (Ok(()), (200_000, beside))),
        told(held, 8) == (200_000, all),
    ]
}

#[test]
fn takes_no_row_beside_two_hundred_thousand(rt: HostRuntime) -> Result<(), Fail> {
    let mut held = full(rt.alloc())?;
    assert!(rt; is_kept_full(rt.alloc(), &mut held) == [true; 5]);
    assert!(rt; held.clone()?.count() == 200_000);
    Ok(())
}
