//! The tokens of a line.

ghost use Rattle.std.specs.Prelude.{◌≡◌, ◌+◌, ◌<◌, ◌^◌, [], ◌∷◌, MatchOption, length};
ghost use Rattle.ccsl_refute.specs.Text.{tokens};

use crate::blanks::{blanks, letters};
use std::marker::Model;

/// A token: the place of its first byte in the text, and its bytes.
#[derive(Clone, Copy)]
pub struct Token<'a> {
    pub at: usize,
    pub bytes: &'a [u8],
}

/// The tokens that are left of a line. Contracts see them, and the place where the line ends.
#[derive(Drop)]
pub struct Tokens<'a> {
    at: usize,
    rest: &'a [u8],
}

impl<'a> Model for Tokens<'a> {
    ghost use Rattle.std.specs.Prelude.{List, ℕ, length, ◌+◌, ◌<◌, ◌^◌};
    ghost use Rattle.ccsl_refute.specs.Text.{tokens};

    ghost Value = { List (ℕ × List ℕ) × ℕ };

    ghost view = { λ t. (tokens t.at t.rest.now, t.at + length t.rest.now) };

    ghost invariant = { λ t. t.at + length t.rest.now < 2 ^ 64 };
}

impl<'a> Tokens<'a> {
    /// The tokens of a line that begins at a place.
    pub fn of(at: usize, line: &'a [u8]) -> Tokens<'a>
        requires { at + length line.now < 2 ^ 64 }
        ensures tokens { result.0 ≡ tokens at line.now }
        ensures end { result.1 ≡ at + length line.now }
    {
        Tokens { at, rest: line }
    }

    /// The place where the line ends.
    pub fn end(&self) -> usize
        ensures { result ≡ self.now.1 }
    {
        self.at + self.rest.len()
    }

    /// The next token.
    pub fn next(&mut self) -> Option<Token<'a>>
        ensures next { MatchOption result ((self.old.0 ≡ []) × (self.new.0 ≡ []))
            (λ t. self.old.0 ≡ (t.at, t.bytes.now) ∷ self.new.0) }
        ensures end { self.new.1 ≡ self.old.1 }
    {
        let start = blanks(self.rest);
        let word = &self.rest[start..];
        let len = letters(word);
        if len == 0 {
            return None;
        }
        let token = Token {
            at: self.at + start,
            bytes: &word[..len],
        };
        self.at += start + len;
        self.rest = &word[len..];
        Some(token)
    }
}
