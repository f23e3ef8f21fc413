//! What a file of events says.

use ccsl_scopes::Path;

/// A path, and the place of its first byte in the file.
#[derive(Drop)]
pub struct Located {
    pub at: u64,
    pub path: Path,
}

/// Whether a path has a value, or another one.
#[derive(Drop)]
pub struct Condition {
    pub path: Located,
    pub is_equal: bool,
    /// the place of the value in the file
    pub at: u64,
    /// the letters of the value
    pub letters: Vec<u8>,
}

/// What makes a name happen.
#[derive(Drop)]
pub enum Trigger {
    /// a bit that is 1 and was not
    Rise(Located),
    /// a bit that is 0 and was not
    Fall(Located),
    /// another value than before
    Change(Located),
    /// a condition that holds and did not
    Becomes(Condition),
    /// a record of an event outside a dump block
    Record(Located),
}

/// A name, what makes it happen, and what has to hold before that.
#[derive(Drop)]
pub struct Event {
    pub name: Vec<u8>,
    pub trigger: Trigger,
    pub conditions: Vec<Condition>,
}
