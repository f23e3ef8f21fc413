//! The tokens of a line.

ghost use Rattle.std.specs.Prelude.{◌≡◌, [], ◌∷◌, MatchOption};
ghost use Rattle.ccsl_session.specs.Asked.{tokens};

use ccsl_refute::blanks::{blanks, letters};
use std::marker::Model;

/// The tokens that are left of a line, as contracts see them.
#[derive(Drop)]
pub(crate) struct Tokens<'a> {
    rest: &'a [u8],
}

impl<'a> Model for Tokens<'a> {
    ghost use Rattle.std.specs.Prelude.{List, ℕ};
    ghost use Rattle.ccsl_session.specs.Asked.{tokens};

    ghost Value = { List (List ℕ) };

    ghost view = { λ t. tokens t.rest.now };
}

impl<'a> Tokens<'a> {
    pub(crate) fn of(line: &'a [u8]) -> Tokens<'a>
        ensures { result ≡ tokens line.now }
    {
        Tokens { rest: line }
    }

    /// The next token.
    pub(crate) fn next(&mut self) -> Option<&'a [u8]>
        ensures { MatchOption result ((self.old ≡ []) × (self.new ≡ []))
            (λ t. self.old ≡ t.now ∷ self.new) }
    {
        let word = &self.rest[blanks(self.rest)..];
        let len = letters(word);
        if len == 0 {
            return None;
        }
        self.rest = &word[len..];
        Some(&word[..len])
    }
}
