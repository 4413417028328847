//! Cells of a calendar.

/// What a cell tells of its two days.
#[derive(Clone, Copy)]
pub enum CellValue {
    /// The price of the best ticket.
    Price(u64),
    /// There is no ticket.
    NoTicket,
    /// More residuals are reached than the budget allows.
    TooLarge,
}

/// A cell: a day out, a day back, and what is told of them.
#[derive(Clone, Copy)]
pub struct Cell {
    pub out: i32,
    pub back: i32,
    pub value: CellValue,
}
