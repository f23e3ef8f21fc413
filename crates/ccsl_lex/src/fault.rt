//! The faults of the lexer.

ghost use Rattle.std.specs.Prelude.{◌≡◌};
ghost use Rattle.ccsl_lex.specs.declared.fault.LexFault.TheVariants.{Memory};

use std::alloc::{AllocError, AllocFailed};
use thiserror::Error;

/// The first lexical fault of a text, with its offset, or want of memory.
#[derive(Clone, Copy, Debug, Error)]
pub enum LexFault {
    /// A byte that begins no token, a single `/` among them.
    #[error("bad byte at byte {0}")]
    BadByte(usize),
    /// A name or a word of letters of more than 64 bytes, at its first byte.
    #[error("name too long at byte {0}")]
    NameTooLong(usize),
    /// A number above 4294967295, at its first digit.
    #[error("number too large at byte {0}")]
    NumberTooLarge(usize),
    /// A quoted text that isn't closed, or holds a byte outside 32 to 126, at its opening quote.
    #[error("open text at byte {0}")]
    OpenText(usize),
    #[error("no memory")]
    Memory,
}

impl From<AllocError> for LexFault {
    ghost from_gives = { λ _ e. e ≡ Memory };

    fn from(_error: AllocError) -> LexFault {
        LexFault::Memory
    }
}

impl<T: Drop> From<AllocFailed<T>> for LexFault {
    ghost from_gives = { λ _ e. e ≡ Memory };

    fn from(_failed: AllocFailed<T>) -> LexFault {
        LexFault::Memory
    }
}
