//! Binary words as values.

ghost use Rattle.std.specs.Prelude.{◌≡◌, ◌<◌, ◌≤◌, ◌↔◌, ◌≢◌, IfOk, IfErr, Some, None, vec_len, ◌++◌, ◌∷◌};
ghost use Rattle.ccsl_words.specs.Word.{letter, rest, is_finite, word_len};
ghost use Rattle.ccsl_words.specs.Spelling.{read_word, digits};
ghost use Rattle.ccsl_words.specs.Reads.{Reads};
ghost use Rattle.ccsl_words.specs.Fault.{IsFault};

use crate::fault::WordFault;
use crate::front::letters_at_front;
use ccsl_base::{MAX_LETTERS, Seq};
use std::alloc::Global;
use std::marker::Model;

/// A binary word with at least one letter and at most [`MAX_LETTERS`].
#[derive(Drop)]
pub struct Word {
    prefix: Seq<bool>,
    period: Seq<bool>,
}

impl Model for Word {
    ghost use Rattle.std.specs.Prelude.{◌<◌, ◌≤◌, ◌+◌, length};
    ghost use Rattle.ccsl_base.specs.declared.limits.TheConstants.{MAX_LETTERS};
    ghost use Rattle.ccsl_words.specs.Word.{BinaryWord};

    ghost Value = { BinaryWord };

    ghost view = { λ w. record { prefix = w.prefix; period = w.period } };

    ghost invariant = { λ w. (0 < length w.prefix + length w.period)
        × (length w.prefix + length w.period ≤ MAX_LETTERS) };
}

impl Word {
    /// Reads a word's text. The first fault in reading order is answered.
    pub fn read(alloc: Global, text: &[u8]) -> Result<Word, WordFault>
        ensures word { IfOk result (λ w. Reads text.now w) }
        ensures fault { IfErr result (λ e. e ≢ WordFault.Memory → IsFault text.now e) }
        ensures computed { IfOk result (λ w. read_word text.now ≡ Some w) }
        ensures refused { IfErr result (λ e. e ≢ WordFault.Memory → read_word text.now ≡ None) }
    {
        let prefix = letters_at_front(alloc, text, MAX_LETTERS)?;
        let behind = &text[prefix.len()..];
        if let Some(inside) = behind.strip_prefix(b"(") {
            return Word::with_period(alloc, prefix, inside);
        }
        if !behind.is_empty() {
            return Err(WordFault::BadLetter(prefix.len()));
        }
        if prefix.is_empty() {
            return Err(WordFault::Empty);
        }
        Ok(Word {
            prefix: Seq::new(prefix),
            period: Seq::new(Vec::new(alloc)),
        })
    }

    /// Goes on behind a prefix and the ( of a period.
    fn with_period(alloc: Global, prefix: Vec<bool>, inside: &[u8]) -> Result<Word, WordFault>
        requires { vec_len prefix ≤ MAX_LETTERS }
        ensures word { IfOk result (λ w. Reads (digits prefix.items ++ 40 ∷ inside.now) w) }
        ensures fault { IfErr result (λ e. e ≢ WordFault.Memory →
            IsFault (digits prefix.items ++ 40 ∷ inside.now) e) }
    {
        let period = letters_at_front(alloc, inside, MAX_LETTERS - prefix.len())?;
        let end = prefix.len() + 1 + period.len();
        let Some(after) = inside[period.len()..].strip_prefix(b")") else {
            return Err(WordFault::BadLetter(end));
        };
        if period.is_empty() {
            return Err(WordFault::Empty);
        }
        if !after.is_empty() {
            return Err(WordFault::BadLetter(end + 1));
        }
        Ok(Word {
            prefix: Seq::new(prefix),
            period: Seq::new(period),
        })
    }

    /// The letter number `k`, from 0; false past the end of a finite word.
    pub fn letter(&self, k: u64) -> bool
        ensures { result ≡ letter self.now k }
    {
        let prefix = self.prefix.members();
        let period = self.period.members();
        if k < prefix.len() as u64 {
            prefix[k as usize]
        } else if self.is_finite() {
            false
        } else {
            let turn = (k - prefix.len() as u64) % period.len() as u64;
            period[turn as usize]
        }
    }

    /// Whether the word has no period.
    pub fn is_finite(&self) -> bool
        ensures { result ≡ is_finite self.now }
    {
        self.period.members().is_empty()
    }

    /// The letters of prefix and period together.
    pub fn len(&self) -> u64
        ensures letters { result ≡ word_len self.now }
        ensures few { result ≤ MAX_LETTERS }
        ensures some { 0 < result }
    {
        self.prefix.members().len() as u64 + self.period.members().len() as u64
    }

    /// The offset after `offset`.
    pub fn rest(&self, offset: u64) -> u64
        requires { offset < u64.MAX }
        ensures { result ≡ rest self.now offset }
    {
        let prefix = self.prefix.members().len() as u64;
        if self.is_finite() {
            prefix.min(offset + 1)
        } else if offset + 1 == self.len() {
            prefix
        } else {
            offset + 1
        }
    }
}
