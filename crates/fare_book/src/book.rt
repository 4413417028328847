//! The book: a version of the history.
ghost use Rattle.std.specs.Prelude.{◌≡◌, ◌≤◌, ◌↔◌, ℕ, [], length, map, Some, None, IfErr, IfOk, OnOk, IsTrue, MatchOption};
ghost use Rattle.std.specs.Arc.{arc_value};
ghost use Rattle.fare_law.specs.Book.{live_fare, live_rule, row_key, seats};
ghost use Rattle.fare_law.specs.Lists.{AllDifferent};
ghost use Rattle.fare_law.specs.Sheets.{SheetOf};
ghost use Rattle.fare_law.specs.declared.flights.Flight.{Flight};
ghost use Rattle.fare_book.specs.Keeping.{History, Limited, NoFare};
ghost use Rattle.fare_book.specs.Seating.{SeatsBook};
ghost use Rattle.seat_classes.specs.Given.{HasCause};
ghost use Rattle.seat_classes.specs.Held.{seats_in};

mod next;
mod open_book;

use crate::Timetable;
use crate::keys::{Market, RuleKey};
use crate::rows::row_of;
use fare_law::{
    FareKey, Filing, List, MOST_ENTRIES, MOST_SEAT_ROWS, MarketSheet, Place, Rule, SeatRow, Shared,
    SheetRow,
};
pub use open_book::OpenBook;
use schedule_book::Schedule;
use seat_classes::{SeatFault, Seats, live_rows_seat_flights};
use std::alloc::Global;
use std::collections::HashMap;
use std::marker::Model;
use std::sync::Arc;

/// A timetable with the filings so far, and the sheets, rules and seats that they leave. Contracts see
/// the timetable and the filings; all else follows from them.
#[derive(Drop)]
pub struct Book {
    timetable: Arc<Timetable>,
    entries: List<Arc<Filing>>,
    sheets: HashMap<Market, Arc<MarketSheet>>,
    rules: HashMap<RuleKey, Shared<Rule>>,
    /// How many live fares name each rule.
    uses: HashMap<RuleKey, u32>,
    seats: Arc<Seats>,
    fare_count: u32,
    rule_count: u32,
}

impl Model for Book {
    ghost use Rattle.std.specs.Prelude.{map};
    ghost use Rattle.std.specs.Arc.{arc_value};
    ghost use Rattle.fare_law.specs.Book.{Book as Version};
    ghost use Rattle.fare_book.specs.Keeping.{Keeps};

    ghost Value = { Version };

    ghost view = { λ b. record { timetable = arc_value b.timetable; entries = map arc_value b.entries } };

    ghost invariant = { λ b. Keeps (record { timetable = arc_value b.timetable; entries = map arc_value b.entries }) b.sheets.entries b.rules.entries b.uses.entries b.fare_count b.rule_count (arc_value b.seats) };
}

impl Book {
    /// The book of a schedule and at most `MOST_SEAT_ROWS` seat rows, with no filing. The first row that has the
    /// carrier, number, origin and date field of an earlier one is refused. A row for no flight has no
    /// effect.
    pub fn empty(alloc: Global, schedule: Schedule, rows: &[SeatRow]) -> Result<Book, SeatFault>
        requires { length rows.now ≤ MOST_SEAT_ROWS }
        ensures value { IfOk result (λ b. b ≡ record { timetable = record { places = schedule.places; flights = schedule.flights; seats = rows.now }; entries = [] }) }
        ensures differ { OnOk result (AllDifferent (map row_key rows.now)) }
        ensures fault { IfErr result (HasCause rows.now) }
    {
        let seats = Arc::new(alloc, Seats::build(alloc, rows)?)?;
        let timetable = Arc::new(alloc, Timetable::of(schedule, rows))?;
        Ok(Book {
            timetable,
            entries: List::new(alloc),
            sheets: HashMap::new(alloc),
            rules: HashMap::new(alloc),
            uses: HashMap::new(alloc),
            seats,
            fare_count: 0,
            rule_count: 0,
        })
    }

    /// The timetable.
    pub fn timetable(&self) -> &Arc<Timetable>
        ensures { arc_value result.now ≡ self.now.timetable }
    {
        &self.timetable
    }

    /// The number of the version: how many filings it has.
    pub fn number(&self) -> u32
        ensures value { result ≡ length self.now.entries }
        ensures few { result ≤ MOST_ENTRIES }
    {
        self.entries.len() as u32
    }

    /// The filings, in order. They are a legal history, each within its limits.
    pub fn entries(&self) -> &[Arc<Filing>]
        ensures entries { map arc_value result.now ≡ self.now.entries }
        ensures history { History self.now }
    {
        self.entries.as_slice()
    }

    /// The sheet of a market in the direction in which fares are filed. None exactly where no live fare
    /// is filed from the one place to the other.
    pub fn sheet(&self, from: Place, to: Place) -> Option<&Arc<MarketSheet>>
        ensures { MatchOption result (NoFare self.now from to) (λ sheet. SheetOf self.now from to (arc_value sheet.now)) }
    {
        self.sheets.get(&Market { from, to })
    }

    /// The live seats.
    pub fn seats(&self) -> &Seats
        ensures keys { SeatsBook self.now result.now }
        ensures flights { (flight : Flight) (class : ℕ) → seats_in result.now flight class ≡ seats self.now flight class }
    {
        live_rows_seat_flights();
        &self.seats
    }

    /// The live fare of a key with its live rule. None exactly where no such fare is live.
    pub fn fare(&self, key: &FareKey) -> Option<&SheetRow>
        ensures { MatchOption result (live_fare self.now key.now ≡ None) (λ row. (live_fare self.now key.now ≡ Some row.now.fare) × (live_rule self.now key.now.carrier row.now.fare.rule ≡ Some row.now.rule)) }
    {
        self.limits();
        let sheet = self.sheet(key.from, key.to)?;
        row_of(sheet, key)
    }

    /// Tells the limits of the live fares, rules and seats.
    pub fn limits(&self)
        ensures { Limited self.now }
    {
        let _ = &self.uses;
    }
}
