//! What is known before any filing.
ghost use Rattle.std.specs.Prelude.{◌≡◌};

use crate::known_list::KnownList;
use fare_law::SeatRow;
use schedule_book::Schedule;
use std::marker::Model;

/// The places, the dated flights and the seat rows that a case gives. Contracts see the seat rows as
/// they were given; they aren't kept, as a book has its seats.
#[derive(Drop)]
pub struct Timetable {
    schedule: Schedule,
    rows: KnownList<SeatRow>,
}

impl Model for Timetable {
    ghost use Rattle.fare_law.specs.Book.{Timetable as Given};

    ghost Value = { Given };

    ghost view = { λ t. record { places = t.schedule.places; flights = t.schedule.flights; seats = t.rows } };
}

impl Timetable {
    /// The timetable of a schedule and these seat rows.
    pub(crate) fn of(schedule: Schedule, rows: &[SeatRow]) -> Timetable
        ensures { result ≡ record { places = schedule.places; flights = schedule.flights; seats = rows.now } }
    {
        Timetable {
            schedule,
            rows: KnownList::of(rows),
        }
    }

    /// The places and the dated flights.
    pub fn schedule(&self) -> &Schedule
        ensures { result.now ≡ record { places = self.now.places; flights = self.now.flights } }
    {
        &self.schedule
    }
}
