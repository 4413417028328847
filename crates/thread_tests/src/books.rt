//! Books of rows, and what is filed and asked for over one flight.
ghost use Rattle.std.specs.Prelude.{◌≡◌, ◌≤◌, length, IfOk};
ghost use Rattle.std.specs.Arc.{arc_value};
ghost use Rattle.fare_law.specs.FilingLimits.{IsAction, IsFiling};
ghost use Rattle.fare_law.specs.Limits.{IsFareKey};
ghost use Rattle.fare_law.specs.declared.limits.TheConstants.{MOST_SEAT_ROWS};

use crate::filings::{LON, NYC, QX, Y, fare_key, filing_of, put};
use fare_book::Book;
use fare_law::{Action, ArrayVec, FareKey, FareKind, Filing, Mem, Request, SeatRow, Slice};
use fare_versions::{Clerk, FileFault, Receipt};
use schedule_book::Schedule;
use std::alloc::Global;
use std::sync::{Arc, Wait};
use std::test::Fail;

/// The book of a schedule and these seats, and no filing.
pub fn empty(alloc: Global, schedule: Schedule, seats: &[SeatRow]) -> Result<Book, Fail>
    requires { length seats.now ≤ MOST_SEAT_ROWS }
{
    Ok(Book::empty(alloc, schedule, seats)?)
}

/// The book with this filing more.
pub fn filed(alloc: Global, book: &Book, filing: Arc<Filing>) -> Result<Book, Fail>
    requires { IsFiling (arc_value filing) }
{
    Ok(book.with(alloc, filing)?)
}

/// The key of the fare QX LON NYC with this basis of one letter.
pub fn key_out(letter: u8) -> FareKey
    requires { (65 ≤ letter) × (letter ≤ 90) }
    ensures { IsFareKey result }
{
    fare_key(QX, LON, NYC, letter)
}

/// The one-way fare of this key in class Y is put at this amount.
pub fn put_at(key: FareKey, amount: u64) -> Action
    requires key { IsFareKey key }
    requires amount { amount ≤ 1000000000 }
    ensures { IsAction result }
{
    put(key, Y, FareKind::O, amount, 0)
}

/// What came of filing one action.
pub fn file<R: Wait>(
    rt: &R,
    alloc: Global,
    clerk: &mut Clerk,
    action: Action,
) -> Result<Receipt, FileFault>
    requires { IsAction action }
    ensures house { clerk.new.house ≡ clerk.old.house }
    ensures receipt { IfOk result (λ r. r.house ≡ clerk.new.house) }
{
    match filing_of(alloc, action) {
        Ok(filing) => clerk.file(rt, alloc, filing),
        Err(Mem) => Err(FileFault::Mem),
    }
}

/// There on the Monday, for one, and three tickets at most.
pub fn request() -> Request {
    let mut slices = ArrayVec::new();
    slices.push(Slice {
        from: LON,
        to: NYC,
        first: 22341,
        days: 1,
    });
    Request {
        sale: 22300,
        party: 1,
        best: 3,
        slices,
    }
}
