//! What a simulation answers.

/// How a simulation ended.
#[derive(Clone, Copy)]
pub enum Done {
    /// With all its steps.
    Full,
    /// After so many steps, since no step is left.
    Deadlock(u64),
}
