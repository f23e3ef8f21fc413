//! The variables of a header.

ghost use Rattle.std.specs.Prelude.{◌≡◌, take};

use crate::select::Select;

/// What a variable's values are.
#[derive(Clone, Copy)]
pub enum Kind {
    /// Bits of a net, a register or a parameter.
    Bits,
    /// An event, which has no value.
    Event,
    /// Numbers or texts: `real`, `realtime` and `string`.
    Other,
}

/// A declared variable. Its path is the names of its scopes and its own, with a blank between two; no name has one in
/// it.
#[derive(Drop)]
pub struct Variable {
    pub kind: Kind,
    pub size: u32,
    /// the number of its code
    pub code: u32,
    pub path: Vec<u8>,
    /// how many bytes the path has without what stands in brackets at its end
    pub bare: usize,
    /// what stands in brackets behind its name
    pub range: Select,
}

impl Variable {
    /// The path without what stands in brackets at its end.
    pub fn bare_path(&self) -> &[u8]
        ensures { result.now ≡ take self.now.bare self.now.path.items }
    {
        &self.path[..self.bare.min(self.path.len())]
    }
}
