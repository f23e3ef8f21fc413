//! The relations that are decided.

/// A relation of CCSL between two clocks.
#[derive(Clone, Copy, PartialEq, Eq)]
pub enum Between {
    Precedes,
    Subclock,
    Excludes,
}
