//! Bytes of tokens that are kept.

ghost use Rattle.std.specs.Prelude.{◌≡◌, ◌++◌, [], IfOk};

use ccsl_base::Memory;
use std::alloc::Global;
use std::marker::Model;

/// A text that is made anew, or longer.
#[derive(Drop)]
pub(crate) struct Buffer {
    bytes: Vec<u8>,
}

impl Model for Buffer {
    ghost use Rattle.std.specs.Prelude.{List, ℕ};

    ghost Value = { List ℕ };

    ghost view = { λ b. b.bytes.items };
}

impl Buffer {
    pub(crate) fn new(alloc: Global) -> Buffer
        ensures { result ≡ [] }
    {
        Buffer {
            bytes: Vec::new(alloc),
        }
    }

    pub(crate) fn add(&mut self, text: &[u8]) -> Result<(), Memory>
        ensures { IfOk result (λ _. self.new ≡ self.old ++ text.now) }
    {
        self.bytes.extend_from_slice(text)?;
        Ok(())
    }

    pub(crate) fn set(&mut self, text: &[u8]) -> Result<(), Memory>
        ensures { IfOk result (λ _. self.new ≡ text.now) }
    {
        self.bytes.clear();
        self.add(text)
    }

    pub(crate) fn bytes(&self) -> &[u8]
        ensures { result.now ≡ self.now }
    {
        self.bytes.as_slice()
    }
}
