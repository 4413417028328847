//! Verdicts.

/// What the check of a certificate finds.
#[derive(Clone, Copy)]
pub enum Verdict {
    /// The five checks hold.
    Yes,
    /// The first check that fails, 1 to 5 for rows, bounds, answers, departures and request, and the
    /// place where it fails.
    No { rule: u8, place: u32 },
}
