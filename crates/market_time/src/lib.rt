//! Local dates, times and offsets from UTC as plain numbers: the text of a date, a time or an
//! offset is read exactly, a day's text and its weekday are told, and a local time becomes an
//! instant. A day is counted from 1970-01-01, an instant in minutes from 1970-01-01 00:00 UTC.
#![tactic(auto)]

mod clock;
mod dates;
mod digits;
mod fault;
mod laws;
mod weekdays;

pub use clock::{instant, minute_of, offset_of};
pub use dates::{day_of, day_text};
pub use fault::TimeFault;
pub use laws::{
    dates_as_written, dates_in_century, offsets_as_written, one_date_text, times_as_written,
    weekdays_in_turn,
};
pub use weekdays::{first_sunday_after, weekday};
