//! What an expression may be where it stands.

/// How many levels are left, and whether the text is of version 2.
#[derive(Clone, Copy)]
pub struct Room {
    pub levels: u32,
    pub two: bool,
}
