//! Why there is no calendar.
ghost use Rattle.std.specs.Prelude.{◌≡◌};

use fare_law::{Mem, Why};

/// Why there is no calendar; of several faults the first that is listed here.
#[derive(Clone, Copy, PartialEq, Eq, Debug)]
pub enum CalendarFault {
    /// The request is none.
    BadRequest(Why),
    /// It hasn't two slices.
    NotTwo,
    /// A span isn't of 1 to 31 days, or ends after 2099-12-31.
    Span,
    /// Want of memory.
    Mem,
}

impl From<Mem> for CalendarFault {
    ghost use Rattle.fare_calendar.specs.declared.fault.CalendarFault.TheVariants.{Mem};

    ghost from_gives = { λ _ e. e ≡ Mem };

    fn from(_error: Mem) -> CalendarFault {
        CalendarFault::Mem
    }
}

impl From<Why> for CalendarFault {
    ghost use Rattle.fare_calendar.specs.declared.fault.CalendarFault.TheVariants.{BadRequest};

    ghost from_gives = { λ why e. e ≡ BadRequest why };

    fn from(why: Why) -> CalendarFault {
        CalendarFault::BadRequest(why)
    }
}
