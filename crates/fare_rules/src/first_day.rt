//! Categories 3, 5 and 14: on which days a unit may begin.
ghost use Rattle.std.specs.Prelude.{◌↔◌, ◌≤ℤ◌, pos, IfSome, IsTrue};
ghost use Rattle.fare_law.specs.Days.{InRange, InSomeRange};
ghost use Rattle.fare_law.specs.Units.{AdvanceHolds, SeasonHolds, TravelHolds};

use fare_law::{ArrayVec, DayRange, Rule};

/// Whether the first day meets category 3: it lies in one of the ranges. True where it is absent.
pub fn season_ok(rule: &Rule, first_day: i32) -> bool
    ensures { IsTrue result ↔ SeasonHolds rule.now first_day }
{
    permits(&rule.cat3, first_day)
}

/// Whether the first day meets category 5: the sale, on a day up to 100,000, is at least so many
/// days before. True where it is absent.
pub fn advance_ok(rule: &Rule, sale: i32, first_day: i32) -> bool
    requires { sale ≤ℤ pos 100000 }
    ensures { IsTrue result ↔ AdvanceHolds rule.now sale first_day }
{
    rule.cat5
        .is_none_or(|days| sale + i32::from(days) <= first_day)
}

/// Whether the first day meets category 14: it lies in one of the ranges, where those are given.
/// True where it is absent.
pub fn travel_ok(rule: &Rule, first_day: i32) -> bool
    ensures { IsTrue result ↔ TravelHolds rule.now first_day }
{
    rule.cat14
        .as_ref()
        .is_none_or(|travel| permits(&travel.ranges, first_day))
}

/// Whether the day lies in one of the ranges, where there are ranges.
fn permits(ranges: &Option<ArrayVec<DayRange, 8>>, day: i32) -> bool
    ensures { IsTrue result ↔ IfSome ranges.now (InSomeRange day) }
{
    ranges
        .as_ref()
        .is_none_or(|ranges| in_some_range(day, ranges.as_slice()))
}

/// Whether the day lies in one of the ranges.
fn in_some_range(day: i32, ranges: &[DayRange]) -> bool
    ensures { IsTrue result ↔ InSomeRange day ranges.now }
{
    ranges.iter().any(|range| in_range(day, range))
}

/// Whether the day lies in the range, its first and its last day included.
fn in_range(day: i32, range: &DayRange) -> bool
    ensures { IsTrue result ↔ InRange day range.now }
{
    range.first <= day && day <= range.last
}
