//! Commands with their options.

/// A command of the program with its options, as its words ask for it.
///
/// `best`, where it is given, replaces the number of tickets in every request. `budget` bounds the residuals of a search
/// and is 100,000 where it isn't given. `at` names the version of the book; without it the last one is meant.
#[derive(Clone, Copy)]
pub enum Command {
    /// The cheapest tickets of a case, with their certificate.
    Search {
        /// 1 to `MOST_TICKETS`.
        best: Option<u16>,
        /// 1 to `MOST_BUDGET`.
        budget: u32,
        /// 0 to `LAST_VERSION`.
        at: Option<u32>,
    },
    /// The verdict on a certificate.
    Check {
        /// 1 to `MOST_TICKETS`.
        best: Option<u16>,
        /// 0 to `LAST_VERSION`.
        at: Option<u32>,
    },
    /// A made case, or its summary.
    Make {
        seed: u32,
        /// 1 to 100.
        size: u8,
        is_summary: bool,
    },
    /// The replies to a script, while filings come in.
    Serve {
        /// 1 to `MOST_TICKETS`.
        best: Option<u16>,
        /// 1 to `MOST_BUDGET`.
        budget: u32,
    },
    /// The least price for each outward and homeward day.
    Calendar {
        /// How many outward days, 1 to 31.
        outs: u8,
        /// How many homeward days, 1 to 31.
        backs: u8,
        /// 1 to `MOST_BUDGET`.
        budget: u32,
        /// 0 to `LAST_VERSION`.
        at: Option<u32>,
    },
    /// The breaches of one ticket.
    Verdict {
        /// 0 to `LAST_VERSION`.
        at: Option<u32>,
    },
}
