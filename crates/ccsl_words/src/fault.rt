//! Why a text is no word.

use thiserror::Error;

/// The first fault of a text, in reading order.
#[derive(Clone, Copy, Debug, Error)]
pub enum WordFault {
    /// There is no letter: the text is empty, or the parentheses of its period are.
    #[error("no letter")]
    Empty,
    /// The byte at this place, from 0, can't stand there; or the text ends there, inside its period.
    #[error("no letter may stand at {0}")]
    BadLetter(usize),
    /// There is a letter number 4,097.
    #[error("more than 4,096 letters")]
    TooLong,
    /// No memory was to be had.
    #[error("out of memory")]
    Memory,
}
