//! Seats that are put and dropped.
ghost use Rattle.fare_law.specs.declared.filings.Action.TheVariants.{PutSeats, DropSeats};
ghost use Rattle.fare_book.specs.Drafts.{Acts, ActsOnSeats};

use crate::draft::{Draft, Stop};
use fare_law::{BookWhy, SeatKey};
use seat_classes::{SeatPut, Seats};
use std::alloc::Global;
use std::sync::Arc;

/// Gives a key these seats.
pub fn put_seats(
    draft: &mut Draft,
    alloc: Global,
    key: &SeatKey,
    seats: &[u8; 32],
) -> Result<(), Stop>
    ensures { Acts (PutSeats key.now seats.now) draft.old draft.new result }
{
    let held = Arc::make_mut(&mut draft.seats)?;
    put_in(alloc, held, key, seats)
}

/// Gives a key these seats among those that are held.
fn put_in(alloc: Global, held: &mut Seats, key: &SeatKey, seats: &[u8; 32]) -> Result<(), Stop>
    ensures { ActsOnSeats (PutSeats key.now seats.now) held.old held.new result }
{
    match held.put(alloc, key, seats) {
        Ok(()) => Ok(()),
        Err(SeatPut::Full) => Err(Stop::Fault(BookWhy::Limit)),
        Err(SeatPut::Mem) => Err(Stop::Mem),
    }
}

/// Takes the seats of a key away.
pub fn drop_seats(draft: &mut Draft, key: &SeatKey) -> Result<(), Stop>
    ensures { Acts (DropSeats key.now) draft.old draft.new result }
{
    let held = Arc::make_mut(&mut draft.seats)?;
    drop_from(held, key)
}

/// Takes the seats of a key away from those that are held.
fn drop_from(held: &mut Seats, key: &SeatKey) -> Result<(), Stop>
    ensures { ActsOnSeats (DropSeats key.now) held.old held.new result }
{
    if held.drop_row(key) {
        Ok(())
    } else {
        Err(Stop::Fault(BookWhy::NoSeats))
    }
}
