//! What refutes some values by itself.

/// What may refute some values: the formula of an item, from 0, or the clause of a line, from 1.
#[derive(Clone, Copy)]
pub enum Reason {
    Item(u32),
    Clause(u64),
}
