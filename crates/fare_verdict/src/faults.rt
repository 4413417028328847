//! Why a ticket isn't read.

/// Why a ticket isn't read.
#[derive(Clone, Copy, PartialEq, Eq, Debug)]
pub enum TicketFault {
    /// The line of this number isn't of the form of a ticket's line, or doesn't go on from those before.
    Line { line: u32 },
}
