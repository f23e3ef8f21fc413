//! What a tokenizer answers.

/// A token that ended: the place of its first byte, counted from 0, and how many bytes it has.
#[derive(Clone, Copy)]
pub struct Span {
    pub at: u64,
    pub len: u32,
}

/// The place of the first byte of a token with more than 65,536 bytes.
#[derive(Clone, Copy)]
pub struct TokenTooLong {
    pub at: u64,
}

/// How many bytes of a piece were taken, and which token the last of them ended.
#[derive(Clone, Copy)]
pub struct Fed {
    pub bytes: usize,
    pub ended: Option<Span>,
}
