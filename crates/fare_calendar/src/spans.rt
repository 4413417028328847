//! The days of a calendar.

/// How many days a calendar has for each slice, from the first day of its window on: 1 to 31 each.
#[derive(Clone, Copy)]
pub struct Spans {
    pub outs: u8,
    pub backs: u8,
}
