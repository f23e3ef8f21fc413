//! Where an item is violated.

/// A row at which an item is violated: the row's number, from 0, its time in the trace's own unit, and the number of
/// the item.
#[derive(Clone, Copy)]
pub struct Violation {
    pub step: u64,
    pub time: u64,
    pub item: u32,
}
