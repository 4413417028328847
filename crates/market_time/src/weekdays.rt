//! Weekdays of days.
ghost use Rattle.std.specs.Prelude.{◌≡◌, ◌≢◌, ◌-◌, ◌%◌, ◌≤◌, pos, ℤ, ◌+ℤ◌, ◌<ℤ◌, ◌≤ℤ◌};
ghost use Rattle.std.specs.Int.{IsInRange};
ghost use Rattle.market_time.specs.Weekdays.{weekday_of};

/// The weekday of a day that is at least 0: 1 for Monday to 7 for Sunday.
pub fn weekday(day: i32) -> u8
    requires { pos 0 ≤ℤ day }
    ensures value { result ≡ weekday_of day }
    ensures range { IsInRange 1 7 result }
{
    // Day 0 is a Thursday.
    ((day as u32 + 3) % 7 + 1) as u8
}

/// The first Sunday strictly after a day from 0 to 100,000.
pub fn first_sunday_after(day: i32) -> i32
    requires low { pos 0 ≤ℤ day }
    requires high { day ≤ℤ pos 100000 }
    ensures later { day <ℤ result }
    ensures sunday { weekday_of result ≡ 7 }
    ensures first { (between : ℤ) → day <ℤ between → between <ℤ result → weekday_of between ≢ 7 }
    ensures count { result ≡ day +ℤ pos (7 - weekday_of day % 7) }
{
    day + 7 - i32::from(weekday(day) % 7)
}
