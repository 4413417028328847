//! Laws for callers' proofs: what the texts of days and times are, and how weekdays go on. Each is
//! a function with no code.
ghost use Rattle.std.specs.Prelude.{◌≡◌, ◌↔◌, ◌+◌, ◌==◌, ℕ, ℤ, pos, ◌+ℤ◌, ◌≤ℤ◌, List, if◌then◌else◌};
ghost use Rattle.jiff_core.specs.Calendar.{weekday_number};
ghost use Rattle.market_time.specs.Clock.{minute_spelled, offset_spelled, WritesMinute, WritesOffset};
ghost use Rattle.market_time.specs.Dates.{day_spelled, WritesDay, IsInCentury};
ghost use Rattle.market_time.specs.Weekdays.{weekday_of};

/// A text spells a day exactly where it is a date of the years 2000 to 2099 written as
/// `YYYY-MM-DD`, and then it spells that date's day.
pub fn dates_as_written()
    ensures { (text : List ℕ) (day : ℤ) → (day_spelled text ≡ Some day) ↔ WritesDay text day }
{}

/// A day has one text only.
pub fn one_date_text()
    ensures { (one other : List ℕ) (day : ℤ) → day_spelled one ≡ Some day
        → day_spelled other ≡ Some day → one ≡ other }
{}

/// Each day that a text spells lies from 2000-01-01 to 2099-12-31.
pub fn dates_in_century()
    ensures { (text : List ℕ) (day : ℤ) → day_spelled text ≡ Some day → IsInCentury day }
{}

/// A text spells a minute exactly where it is that minute of the day written as `HH:MM`.
pub fn times_as_written()
    ensures { (text : List ℕ) (minute : ℕ) → (minute_spelled text ≡ Some minute)
        ↔ WritesMinute text minute }
{}

/// A text spells an offset exactly where it is a sign and at most 14 hours written as `HH:MM`.
pub fn offsets_as_written()
    ensures { (text : List ℕ) (offset : ℤ) → (offset_spelled text ≡ Some offset)
        ↔ WritesOffset text offset }
{}

/// Day 0 is a Thursday, each day has the weekday after the day before it, and so all weekdays are
/// those of the calendar, which counts them from 0.
pub fn weekdays_in_turn()
    ensures thursday { weekday_of (pos 0) ≡ 4 }
    ensures next { (day : ℤ) → pos 0 ≤ℤ day
        → weekday_of (day +ℤ pos 1) ≡ (if weekday_of day == 7 then 1 else weekday_of day + 1) }
    ensures calendar { (day : ℤ) → pos 0 ≤ℤ day → weekday_of day ≡ weekday_number day + 1 }
{}
