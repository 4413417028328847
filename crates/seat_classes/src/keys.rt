//! What names the rows of a flight.
ghost use Rattle.std.specs.Prelude.{◌≡◌};
ghost use Rattle.fare_law.specs.Book.{row_key, same_seat_key};
ghost use Rattle.seat_classes.specs.Held.{daily_key, dated_key};

use fare_law::{Flight, SeatKey, SeatRow};

/// What names a row.
pub fn row_key(row: &SeatRow) -> SeatKey
    ensures { result ≡ row_key row.now }
{
    SeatKey {
        carrier: row.carrier,
        number: row.number,
        from: row.from,
        day: row.day,
    }
}

/// What names the row of a flight's own day.
pub fn dated_key(flight: &Flight) -> SeatKey
    ensures { result ≡ dated_key flight.now }
{
    SeatKey {
        day: Some(flight.day),
        ..daily_key(flight)
    }
}

/// What names the row of all days.
pub fn daily_key(flight: &Flight) -> SeatKey
    ensures { result ≡ daily_key flight.now }
{
    SeatKey {
        carrier: flight.carrier,
        number: flight.number,
        from: flight.from,
        day: None,
    }
}
