//! Why a rule isn't read.

/// Why a rule isn't read. In each object `Unknown` is judged first, then `Missing`, then `Range`.
#[derive(Clone, Copy, PartialEq, Eq, Debug)]
pub enum RuleFault {
    /// A member that has to be there is absent.
    Missing = 1,
    /// An object has a member that isn't named.
    Unknown = 2,
    /// A value isn't of its form.
    Range = 3,
    /// Memory ran out.
    Mem = 4,
}
