//! The faults of the parser.

use thiserror::Error;

/// The first fault of the tokens, with its offset in the text, or want of memory.
///
/// The offset is that of the first byte of the token at fault, or of the byte behind the last token where one is
/// missing.
#[derive(Clone, Copy, Debug, Error)]
pub enum ParseFault {
    /// What stands before can go on to a file, and not with this token; or no file ends with the last token. The offset
    /// is 0 where there is no token.
    #[error("syntax at byte {0}")]
    Syntax(usize),
    /// An expression begins here that stands deeper than [`MAX_LEVELS`](ccsl_base::MAX_LEVELS).
    #[error("too deep at byte {0}")]
    TooDeep(usize),
    #[error("no memory")]
    Memory,
}
