//! The names of files.

ghost use Rattle.std.specs.Prelude.{◌≡◌, string_bytes, IfOk};

use ccsl_base::Memory;
use std::alloc::Global;
use std::marker::Model;

/// The name of a file. Contracts see its bytes, which are UTF-8.
pub struct FileName {
    text: String,
}

// By hand and not derived: to the prover, an early return then drops one by a single call.
impl Drop for FileName {
    fn drop(self) {
        let FileName { text: _text } = self;
    }
}

impl Model for FileName {
    ghost use Rattle.std.specs.Prelude.{List, ℕ, string_bytes};

    ghost Value = { List ℕ };

    ghost view = { λ n. string_bytes n.text };
}

impl FileName {
    /// A name with this text.
    pub fn new(alloc: Global, text: &str) -> Result<FileName, Memory>
        ensures { IfOk result (λ name. name ≡ text.now) }
    {
        let text = String::from_str(alloc, text)?;
        Ok(FileName { text })
    }

    /// The name, as it was given.
    pub fn as_str(&self) -> &str
        ensures { result.now ≡ self.now }
    {
        self.text.as_str()
    }
}
