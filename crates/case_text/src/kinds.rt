//! The kinds of cases.

/// What a case is for: it decides which sections a case has.
#[derive(Clone, Copy)]
pub enum CaseKind {
    Search,
    Check,
    Serve,
    Verdict,
}
