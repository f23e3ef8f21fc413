//! The words of a command line.

ghost use Rattle.std.specs.Prelude.{◌≡◌, string_bytes};

use std::marker::Model;

/// A word of the command line. Contracts see its bytes, which are UTF-8.
#[derive(Drop)]
pub struct CommandWord {
    text: String,
}

impl Model for CommandWord {
    ghost use Rattle.std.specs.Prelude.{List, ℕ, string_bytes};

    ghost Value = { List ℕ };

    ghost view = { λ w. string_bytes w.text };
}

impl CommandWord {
    /// The word of a text.
    pub fn new(text: String) -> CommandWord
        ensures { result ≡ string_bytes text }
    {
        CommandWord { text }
    }

    /// Its text.
    pub fn as_str(&self) -> &str
        ensures { result.now ≡ self.now }
    {
        self.text.as_str()
    }
}
