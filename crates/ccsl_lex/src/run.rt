//! Runs of bytes of one kind.

ghost use Rattle.std.specs.Prelude.{◌≡◌, ◌≤◌, length};
ghost use Rattle.std.specs.List.{prefix_len};

use crate::byte::is_remark;
use ccsl_base::{is_digit, is_inner, is_quotable};

/// What a run is made of: what goes on a name, digits, what goes on a comment, what may stand between quotes.
#[derive(Clone, Copy)]
pub enum Run {
    Inner,
    Digits,
    Remark,
    Quotable,
}

impl Run {
    ghost use Rattle.ccsl_lex.specs.Runs.{belongs};

    /// Whether a byte belongs to such a run.
    fn has(self, b: u8) -> bool
        ensures { result ≡ belongs self b }
    {
        match self {
            Run::Inner => is_inner(b),
            Run::Digits => is_digit(b),
            Run::Remark => is_remark(b),
            Run::Quotable => is_quotable(b),
        }
    }

    /// How many bytes in front belong to such a run.
    pub fn len(self, text: &[u8]) -> usize
        ensures run { result ≡ prefix_len (belongs self) text.now }
        ensures within { result ≤ length text.now }
    {
        text.iter()
            .position(|b| !self.has(*b))
            .unwrap_or(text.len())
    }
}
