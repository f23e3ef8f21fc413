//! What may be wrong at a place of a file.

/// What is wrong at a place. Of two causes at one place the first in this order is answered; `Refusal` of ccsl_rules
/// says what each means.
#[derive(Clone, Copy)]
pub enum Cause {
    Duplicate,
    Unknown,
    Later,
    WrongKind,
    Unguarded,
    TooTall,
    Arguments,
    BadWord,
}
