//! The limits of requests, tickets, books, filings and days, by name. What follows from another limit is computed
//! from it.

/// The most slices of a request.
pub const MOST_SLICES: usize = 6;

/// The most components that begin in a slice: each begins with a flight of it, of which it has at most three.
pub const MOST_COMPONENTS_OF_A_SLICE: usize = 3;

/// The most components of a ticket, and so the most moves of a run.
pub const MOST_COMPONENTS: usize = MOST_COMPONENTS_OF_A_SLICE * MOST_SLICES;

/// The most flights of a component.
pub const MOST_FLIGHTS_OF_A_COMPONENT: usize = 4;

/// The room for the flights of all components of a ticket.
pub const MOST_FLIGHTS: usize = MOST_FLIGHTS_OF_A_COMPONENT * MOST_COMPONENTS;

/// The most numbers of a move's code: how many flights it has, these, the carrier, the basis, the role and the slot.
pub const CODE_NUMBERS_OF_A_MOVE: usize = MOST_FLIGHTS_OF_A_COMPONENT + 5;

/// The most numbers of a ticket's code.
pub const CODE_NUMBERS: usize = CODE_NUMBERS_OF_A_MOVE * MOST_COMPONENTS;

/// The first day of the calendar, 2000-01-01, in days since 1970-01-01.
pub const FIRST_DAY: i32 = 10_957;

/// The last day of the calendar, 2099-12-31, in days since 1970-01-01.
pub const LAST_DAY: i32 = 47_481;

/// The most passengers of a request.
pub const MOST_PASSENGERS: u8 = 9;

/// The most tickets that a request asks for.
pub const MOST_TICKETS: u16 = 1_000;

/// The most days of the window of a slice.
pub const MOST_WINDOW_DAYS: u8 = 7;

/// The most dated flights of a timetable.
pub const MOST_DATED_FLIGHTS: usize = 200_000;

/// The most seat rows of a book.
pub const MOST_SEAT_ROWS: usize = 200_000;

/// The most live fares of a book.
pub const MOST_FARES: u32 = 20_000;

/// The most live rules of a book.
pub const MOST_RULES: u32 = 2_000;

/// The most filings of a book.
pub const MOST_ENTRIES: usize = 1_000_000;

/// The most actions of a filing.
pub const MOST_ACTIONS: usize = 5_000;
