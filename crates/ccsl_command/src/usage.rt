//! Why a command line is refused.

use crate::Key;
use ccsl_base::Memory;

/// What is wrong with a list of words. A word is named by its number, the command's being 0.
#[derive(Clone, Copy)]
pub enum Usage {
    /// There is no word.
    NoCommand,
    /// The first word is no command.
    UnknownCommand,
    /// The word has no `=`.
    NotPair(usize),
    /// What stands before the word's first `=` is no key of the command.
    UnknownKey(usize),
    /// The word's key stood in an earlier word.
    Repeated(usize),
    /// What stands behind the word's first `=` is no value of its key.
    BadValue(usize),
    /// A key that the command needs is in no word.
    Missing(Key),
    /// Two file names are equal.
    SameName,
    /// No memory was to be had.
    Memory,
}

impl From<Memory> for Usage {
    fn from(_memory: Memory) -> Usage {
        Usage::Memory
    }
}
