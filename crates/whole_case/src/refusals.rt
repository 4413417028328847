//! Why a case is refused.
ghost use Rattle.std.specs.Prelude.{◌≡◌};
ghost use Rattle.whole_case.specs.declared.refusals.LoadFault.TheVariants.{Mem as OutOfMemory};

use fare_law::{BookWhy, Why};
use std::alloc::AllocFailed;

/// What is wrong with a rule.
#[derive(Clone, Copy, PartialEq, Eq, Debug)]
pub enum RuleWhy {
    Missing,
    Unknown,
    Range,
}

/// Why bytes are no lawful case, in the order in which the stages judge. Each is printed as it is
/// named, with what it holds.
#[derive(Clone, Copy, PartialEq, Eq, Debug)]
pub enum Reason {
    /// The case ends without `#end`.
    NoEnd,
    /// A header of no kind of case.
    UnknownSection,
    /// A header that isn't the one due.
    Order,
    /// A column of a row isn't of its form: `BadRow column c`.
    BadRow { column: u32 },
    /// One line more than a section may have, or one dated flight more than a timetable may have.
    TooMany,
    /// A line after `#end`.
    AfterEnd,
    /// A place stands in two rows.
    PlaceTwice,
    /// A place of a flight has no row.
    UnknownPlace,
    /// A flight goes from a place to itself.
    SamePlace,
    /// A flight's last day is before the first, or more than 365 days after it.
    BadPeriod,
    /// A flight arrives before it departs.
    ArrivesBefore,
    /// A dated flight stands already, or a seat row of the same name and day.
    Twice,
    /// A line isn't JSON; or a line of a certificate isn't of the form that is due, is missing, or
    /// follows the last one.
    Syntax,
    /// A request isn't of its form.
    Shape,
    /// An action isn't of its form, counted from 1, or the filing itself, at 0: `action n Shape`.
    ActionShape { action: u32 },
    /// An action puts a rule that has a fault: `action n Rule Missing`.
    ActionRule { action: u32, why: RuleWhy },
    /// The book doesn't take the action: `action n` and the book's reason.
    ActionRefused { action: u32, why: BookWhy },
    /// A request breaks a limit, or names a place that isn't known: `BadRequest` and why.
    BadRequest(Why),
    /// A calendar is asked for, and the request hasn't two slices.
    NotTwo,
    /// A calendar's days of a slice aren't 1 to 31, or the last of them is after 2099-12-31.
    Span,
    /// A line of a ticket isn't of its form, is a flight before any component, a flight beside
    /// `MOST_FLIGHTS_OF_A_COMPONENT` of one, or a component beside `MOST_COMPONENTS`.
    Ticket,
    /// A line of a script isn't of its form, or names more than there is; at line 0 there is no line.
    Script,
    /// A certificate has fewer or more answers or rows than it says.
    Count,
    /// There is no version of the number that is asked for.
    NoVersion,
}

/// The first fault of a case: its line, counted from 1, and its reason. The line is 0 where the fault
/// is in no line.
#[derive(Clone, Copy, PartialEq, Eq, Debug)]
pub struct Refusal {
    pub line: u32,
    pub reason: Reason,
}

/// Why no case is loaded.
#[derive(Clone, Copy, PartialEq, Eq, Debug)]
pub enum LoadFault {
    /// The bytes are no lawful case.
    Refused(Refusal),
    /// Memory ran out.
    Mem,
}

impl From<fare_law::Mem> for LoadFault {
    ghost from_gives = { λ _ fault. fault ≡ OutOfMemory };

    fn from(_mem: fare_law::Mem) -> LoadFault {
        LoadFault::Mem
    }
}

impl<T: Drop> From<AllocFailed<T>> for LoadFault {
    ghost from_gives = { λ _ fault. fault ≡ OutOfMemory };

    fn from(_error: AllocFailed<T>) -> LoadFault {
        LoadFault::Mem
    }
}
