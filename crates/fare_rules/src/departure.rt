//! Category 2: the weekday and the local time of a component's first departure.
ghost use Rattle.std.specs.Prelude.{◌↔◌, ◌≤ℤ◌, pos, IsTrue};
ghost use Rattle.fare_law.specs.Parts.{DayTimeHolds};

use fare_law::{Flight, Rule};
use market_time::weekday;

/// Whether the first flight, on a day that is at least 0, meets category 2: it departs on one of
/// `days`, from minute `from` to minute `to`. True where it is absent.
pub fn day_time_ok(rule: &Rule, first: &Flight) -> bool
    requires { pos 0 ≤ℤ first.now.day }
    ensures { IsTrue result ↔ DayTimeHolds rule.now first.now }
{
    rule.cat2.as_ref().is_none_or(|times| {
        times.days.as_slice().contains(&weekday(first.day))
            && (times.from..=times.to).contains(&first.minute)
    })
}
