//! What is told of a ticket before its further rules.

/// Whether the flights are known, whether they are cut into the slices, and whether the components are
/// joined, on live fares and with numbered labels.
#[derive(Clone, Copy)]
pub struct Stages {
    pub known: bool,
    pub cut: bool,
    pub joined: bool,
}
