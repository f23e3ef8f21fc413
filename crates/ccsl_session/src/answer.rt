//! How a session ends.

/// How a session ended.
#[derive(Clone, Copy)]
pub enum Ended {
    /// By a line `quit`.
    Quit,
    /// With its input.
    EndOfInput,
    /// The input has more bytes than are taken; the lines that end within those were answered.
    TooLong,
}
