//! Colours of a terminal.

/// What a part of a page is, where it has a colour.
#[derive(Clone, Copy)]
pub enum Paint {
    /// The place of a file.
    Place,
    /// What is at fault.
    Fault,
    /// What is no fault, and yet may be none that was meant.
    Notice,
    /// All else, from here on.
    Plain,
}

impl Paint {
    /// What a terminal takes as the colour.
    pub(crate) fn code(self) -> &'static str {
        match self {
            Paint::Place => "\x1b[1m",
            Paint::Fault => "\x1b[1;31m",
            Paint::Notice => "\x1b[33m",
            Paint::Plain => "\x1b[0m",
        }
    }
}
