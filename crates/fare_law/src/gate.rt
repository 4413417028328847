//! Where a test can see and hold what desks do.

/// Is told before a desk builds a node, and after a desk's answer.
pub trait Gate {
    /// Called before this desk's next step.
    fn pass(&self, desk: u32);

    /// Called after an answer of this desk.
    fn done(&self, desk: u32);
}

/// The gate that does nothing.
#[derive(Clone, Copy)]
pub struct NoGate;

impl Gate for NoGate {
    fn pass(&self, _desk: u32) {}

    fn done(&self, _desk: u32) {}
}
