//! Laws of flights in order, and of the faults of timetables.
ghost use Rattle.std.specs.Prelude.{◌≡◌, List};
ghost use Rattle.fare_law.specs.declared.flights.Flight.{Flight};
ghost use Rattle.fare_law.specs.declared.rows.FlightRow.{FlightRow};
ghost use Rattle.fare_law.specs.declared.rows.PlaceRow.{PlaceRow};
ghost use Rattle.fare_law.specs.Flights.{AreFlights, Ascending, Earlier};
ghost use Rattle.fare_law.specs.Lists.{EachPair};
ghost use Rattle.schedule_book.specs.Faults.{Fault, PlacesDiffer, RowsRight};
ghost use Rattle.schedule_book.specs.declared.faults.SchedFault.{SchedFault};

/// Flights in their order depart one after another.
pub fn ordered_flights_ascend()
    ensures { (fs : List Flight) → EachPair Earlier fs → Ascending fs }
{}

/// The flights of rows are one list.
pub fn one_list_of_flights()
    ensures { (rows : List FlightRow) (fs gs : List Flight) → AreFlights rows fs → AreFlights rows gs → fs ≡ gs }
{}

/// The rows of a timetable have one fault at most, and none where they are right.
pub fn one_fault_of_rows()
    ensures one { (places : List PlaceRow) (rows : List FlightRow) (fault other : SchedFault)
        → Fault places rows fault → Fault places rows other → fault ≡ other }
    ensures none { (places : List PlaceRow) (rows : List FlightRow) (fault : SchedFault)
        → PlacesDiffer places → RowsRight places rows → Fault places rows fault → ⊥ }
{}
