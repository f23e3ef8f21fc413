//! Why a file is refused.

use ccsl_base::Memory;

/// What is wrong with a file. A place counts bytes from 0 in the file's text; a total above 4,294,967,295 is given as
/// that number. Of several causes the one with the least place is answered, and at one place the first in this order;
/// the three totals come after all places.
#[derive(Clone, Copy)]
pub enum Refusal {
    /// A name is declared that its space already has.
    Duplicate(usize),
    /// A name is used that its space does not have.
    Unknown(usize),
    /// A name is used where its first declaration stands later, or around the use.
    Later(usize),
    /// A name is no clock, number, word, relation or expression where that is needed, or an argument is of another kind
    /// than its parameter.
    WrongKind(usize),
    /// A call of the own group stands outside guarded tail positions.
    Unguarded(usize),
    /// A call would give the definition in which it stands a level above the limit.
    TooTall(usize),
    /// A call with another number of arguments than parameters, a parameter past the limit, a number of `delayed` out
    /// of its range, or a number of `precedes within` that is 0.
    Arguments(usize),
    /// A word's text does not read.
    BadWord(usize),
    /// So many clocks are named, above the limit.
    TooManyClocks(u32),
    /// There are so many constraints after expansion, above the limit.
    TooManyConstraints(u32),
    /// The states have so many cells, above the limit.
    StateTooLarge(u32),
    /// No memory was to be had.
    Memory,
}

impl From<Memory> for Refusal {
    fn from(_memory: Memory) -> Refusal {
        Refusal::Memory
    }
}
