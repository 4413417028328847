//! The schedule of a timetable.
ghost use Rattle.std.specs.Prelude.{◌≡◌, ◌≤◌, int_lt, count_by, length, IfErr, IfOk, OnOk};
ghost use Rattle.fare_law.specs.Flights.{AreFlights, Ascending, Earlier};
ghost use Rattle.fare_law.specs.Limits.{IsFlight, IsFlightRow, IsPlace, IsPlaceRow};
ghost use Rattle.fare_law.specs.declared.names.Place.{Place as PlaceName};
ghost use Rattle.fare_law.specs.Lists.{Each, EachPair};
ghost use Rattle.schedule_book.specs.Connects.{connect_of};
ghost use Rattle.schedule_book.specs.Departures.{AreDepartures};
ghost use Rattle.schedule_book.specs.Faults.{HasCause, IsKnown, PlacesDiffer, RowsRight};
ghost use Rattle.schedule_book.specs.LocalDays.{KeepsDay};

use crate::SchedFault;
use crate::departures::Departures;
use crate::expansion::expand;
use crate::numbering::put_in_order;
use crate::places::Places;
use crate::times::Times;
use fare_law::{Flight, FlightRow, List, MOST_DATED_FLIGHTS, Place, PlaceRow};
use std::alloc::Global;
use std::marker::Model;

/// The places and the dated flights of a timetable. A flight's number is its place in the order of
/// departure, carrier, number, origin and day.
#[derive(Drop)]
pub struct Schedule {
    places: Places,
    flights: List<Flight>,
    departures: Departures,
    times: Times,
}

impl Model for Schedule {
    ghost use Rattle.std.specs.Prelude.{◌≤◌, length};
    ghost use Rattle.fare_law.specs.Flights.{Earlier};
    ghost use Rattle.fare_law.specs.Limits.{IsFlight, IsPlaceRow};
    ghost use Rattle.fare_law.specs.Lists.{Each, EachPair};
    ghost use Rattle.schedule_book.specs.Departures.{Indexes};
    ghost use Rattle.schedule_book.specs.LocalDays.{KeepsDay};
    ghost use Rattle.schedule_book.specs.Plan.{Plan};
    ghost use Rattle.fare_law.specs.declared.limits.TheConstants.{MOST_DATED_FLIGHTS};

    ghost Value = { Plan };

    ghost view = { λ s. record { places = s.places; flights = s.flights } };

    ghost invariant = { λ s. (EachPair Earlier s.flights) × (length s.flights ≤ MOST_DATED_FLIGHTS) × Indexes s.flights s.departures.keys.items s.departures.numbers.items × Each IsFlight s.flights × Each KeepsDay s.flights × Each IsPlaceRow s.places };
}

impl Schedule {
    /// The schedule of these rows: each flight row stands for one dated flight for each day of its
    /// period whose weekday is named. The first row with a fault decides, place rows first. The rows
    /// are within the limits that the readers of cases promise.
    pub fn build(
        alloc: Global,
        places: &[PlaceRow],
        rows: &[FlightRow],
    ) -> Result<Schedule, SchedFault>
        requires places { Each IsPlaceRow places.now }
        requires rows { Each IsFlightRow rows.now }
        ensures places { IfOk result (λ s. s.places ≡ places.now) }
        ensures flights { IfOk result (λ s. AreFlights rows.now s.flights) }
        ensures right { OnOk result (PlacesDiffer places.now × RowsRight places.now rows.now) }
        ensures fault { IfErr result (HasCause places.now rows.now) }
    {
        let places = Places::of(alloc, places)?;
        let mut flights = match expand(alloc, rows, &places) {
            Ok(flights) => flights,
            Err(fault) => return Err(fault),
        };
        put_in_order(alloc, flights.as_mut_slice())?;
        let departures = Departures::of(alloc, flights.as_slice())?;
        let times = Times::of(alloc, flights.as_slice())?;
        let flights = List::from_vec(flights);
        Ok(Schedule {
            places,
            flights,
            departures,
            times,
        })
    }

    /// All flights, in order: at most `MOST_DATED_FLIGHTS`, each within its limits.
    pub fn flights(&self) -> &[Flight]
        ensures flights { result.now ≡ self.now.flights }
        ensures order { EachPair Earlier self.now.flights }
        ensures ascending { Ascending self.now.flights }
        ensures few { length self.now.flights ≤ MOST_DATED_FLIGHTS }
        ensures limits { Each IsFlight self.now.flights }
        ensures local { Each KeepsDay self.now.flights }
    {
        self.flights.as_slice()
    }

    /// The least connect time of a place, in minutes. None where the place is unknown.
    pub fn connect(&self, place: Place) -> Option<u16>
        ensures { result ≡ connect_of self.now.places place }
    {
        self.places.connect(place)
    }

    /// The numbers of the flights that depart from a place, ascending, from `lo` to `hi - 1`.
    pub fn from_place(&self, place: Place, lo: u32, hi: u32) -> &[u32]
        ensures { AreDepartures self.now.flights place lo hi result.now }
    {
        self.departures
            .between(self.flights.as_slice(), place, lo, hi)
    }

    /// The number of flights that depart before an instant.
    pub fn lower(&self, at: i64) -> u32
        ensures { result ≡ count_by (λ f. int_lt f.dep at) self.now.flights }
    {
        self.times.lower(self.flights.as_slice(), at) as u32
    }
    /// Tells that the places are within their limits: each is of three capital letters.
    pub fn limits(&self)
        ensures places { Each IsPlaceRow self.now.places }
        ensures known { (place : PlaceName) → IsKnown place self.now.places → IsPlace place }
    {
        let _ = &self.places;
    }
}
