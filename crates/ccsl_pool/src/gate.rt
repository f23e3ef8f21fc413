//! What is told when a part of the work begins. Tests wait at it, to see that parts run side by side.

/// A gate that each part enters once, before it works.
pub trait Gate: Sync {
    /// Part number `part` begins, counted from 0 from the left.
    fn enter(&self, part: u32);
}

/// The gate that does nothing.
#[derive(Clone, Copy)]
pub struct NoGate;

impl Gate for NoGate {
    fn enter(&self, _part: u32) {}
}
