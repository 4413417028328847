//! Scripts and their lines.
use fare_law::List;

/// What one desk does next. Desks and requests are counted from 1.
#[derive(Clone, Copy)]
pub enum ScriptLine {
    /// The desk searches for a request.
    Search { desk: u32, request: u32 },
    /// The desk waits until so many later filings have been judged.
    Await { desk: u32, count: u32 },
}

/// How many desks there are, 1 to 8, and what they do, in order.
#[derive(Drop)]
pub struct Script {
    pub desks: u32,
    pub lines: List<ScriptLine>,
}

/// How many desks, later filings and requests a script line may name.
#[derive(Clone, Copy)]
pub(crate) struct Counts {
    pub desks: u32,
    pub later: u32,
    pub requests: u32,
}
