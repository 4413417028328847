//! What the law demands of a ticket. A breach has the number of the demand that isn't met.
ghost use Rattle.std.specs.Prelude.{◌≡◌, ◌≤◌};
ghost use Rattle.ticket_whole.specs.Breaches.{number_of};

/// What is demanded of a component by itself.
#[derive(Clone, Copy, PartialEq, Eq, Debug)]
pub enum ComponentDemand {
    /// Its flights are known.
    KnownFlights,
    /// It has 1 to `MOST_FLIGHTS_OF_A_COMPONENT` flights.
    FlightCount,
    /// Each flight departs where the one before arrived.
    NoGap,
    /// It calls at no place twice.
    PlacesOnce,
    /// Its fare is live.
    LiveFare,
    /// The fare is filed between its ends, in one direction.
    FareEnds,
    /// Each flight has seats for the party in the fare's class.
    Seats,
    /// Category 2.
    DayTime,
    /// Category 4.
    Flights,
    /// Category 8.
    Stopovers,
    /// Category 9.
    Transfers,
}

/// What is demanded of the flights of all components, cut into the request's slices.
#[derive(Clone, Copy, PartialEq, Eq, Debug)]
pub enum JourneyDemand {
    /// They are cut into exactly the slices, from each one's origin, without a gap in a slice.
    Slices,
    /// A slice has at most three flights.
    Length,
    /// A slice calls at no place twice.
    Places,
    /// Connections are long enough, and in a slice at most a day.
    Connections,
    /// A slice's first departure is in its window.
    Window,
}

/// What is demanded of a component in its unit.
#[derive(Clone, Copy, PartialEq, Eq, Debug)]
pub enum UnitDemand {
    /// The unit has a kind.
    Shape,
    /// The fare's kind may stand in the unit.
    FareKind,
    /// Categories 3 and 5.
    FirstDay,
    /// Category 14.
    TravelDates,
    /// Categories 6 and 7.
    Stay,
    /// Category 10, on the unit.
    Combination,
}

/// A category of a fare's rule that reads the days of the unit, and what is demanded by it alone.
#[derive(Clone, Copy, PartialEq, Eq, Debug)]
pub enum CategoryDemand {
    /// Category 3: the unit begins in season.
    Season,
    /// Category 5: the sale is far enough ahead of the unit's first day.
    Advance,
    /// Category 6: the return is late enough. A one way meets it.
    LeastStay,
    /// Category 7: the return is early enough. A one way meets it.
    GreatestStay,
}

/// What is demanded of a ticket.
#[derive(Clone, Copy, PartialEq, Eq, Debug)]
pub enum Demand {
    HasComponent,
    OfComponent(ComponentDemand),
    OfJourney(JourneyDemand),
    /// Labels are numbered from 1 by first appearance.
    Labels,
    OfUnit(UnitDemand),
    /// Category 10, on the ticket.
    EndOnEnd,
    /// At most two units stand on both sides of a boundary.
    Straddling,
}

impl Demand {
    /// The demand with this number, 1 to 26.
    pub fn numbered(number: u8) -> Demand
        requires low { 1 ≤ number }
        requires high { number ≤ 26 }
        ensures { number_of result ≡ number }
    {
        match number {
            1 => Demand::HasComponent,
            2 => Demand::OfComponent(ComponentDemand::KnownFlights),
            3 => Demand::OfComponent(ComponentDemand::FlightCount),
            4 => Demand::OfComponent(ComponentDemand::NoGap),
            5 => Demand::OfComponent(ComponentDemand::PlacesOnce),
            6 => Demand::OfJourney(JourneyDemand::Slices),
            7 => Demand::OfJourney(JourneyDemand::Length),
            8 => Demand::OfJourney(JourneyDemand::Places),
            9 => Demand::OfJourney(JourneyDemand::Connections),
            10 => Demand::OfJourney(JourneyDemand::Window),
            11 => Demand::OfComponent(ComponentDemand::LiveFare),
            12 => Demand::OfComponent(ComponentDemand::FareEnds),
            13 => Demand::Labels,
            14 => Demand::OfComponent(ComponentDemand::Seats),
            15 => Demand::OfComponent(ComponentDemand::DayTime),
            16 => Demand::OfComponent(ComponentDemand::Flights),
            17 => Demand::OfComponent(ComponentDemand::Stopovers),
            18 => Demand::OfComponent(ComponentDemand::Transfers),
            19 => Demand::OfUnit(UnitDemand::Shape),
            20 => Demand::OfUnit(UnitDemand::FareKind),
            21 => Demand::OfUnit(UnitDemand::FirstDay),
            22 => Demand::OfUnit(UnitDemand::TravelDates),
            23 => Demand::OfUnit(UnitDemand::Stay),
            24 => Demand::OfUnit(UnitDemand::Combination),
            25 => Demand::EndOnEnd,
            _ => Demand::Straddling,
        }
    }
}
