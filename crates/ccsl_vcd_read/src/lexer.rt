//! A tokenizer past which bytes may be read.

ghost use Rattle.std.specs.Prelude.{◌≡◌, ℕ, List, [], ◌++◌, length, take, ◌+◌, ◌-◌, ◌<◌, ◌≤◌, ◌^◌, OnSome, IfOk, IfErr, None, true, map};
ghost use Rattle.ccsl_vcd_lex.specs.Tokens.{tokens, heard, settled};
ghost use Rattle.ccsl_vcd_lex.specs.LongTokens.{first_long};
ghost use Rattle.ccsl_vcd_lex.specs.Runs.{fresh_after};
ghost use Rattle.ccsl_vcd_lex.specs.Lexing.{BreaksWithin, named};
ghost use Rattle.ccsl_vcd_read.specs.Passing.{Lexes};

use ccsl_base::Memory;
use ccsl_vcd_lex::{Fed, Span, TokenTooLong, Tokenizer};
use std::alloc::Global;
use std::marker::Model;

/// Says which tokens end, as a tokenizer does. Tokens that were read without it are passed over by their length.
#[derive(Drop)]
pub(crate) struct Lexer {
    inner: Tokenizer,
    // how many bytes the tokenizer never saw
    passed: u64,
}

impl Model for Lexer {
    ghost use Rattle.ccsl_vcd_read.specs.Passing.{Passing};

    ghost Value = { Passing };

    ghost view = { λ l. record { inner = l.inner; passed = l.passed } };
}

impl Lexer {
    /// A lexer before the first byte.
    pub(crate) fn open(alloc: Global) -> Result<Lexer, Memory>
        ensures { IfOk result (λ l. Lexes l []) }
    {
        let inner = Tokenizer::open(alloc)?;
        Ok(Lexer { inner, passed: 0 })
    }

    /// Takes the bytes of a piece up to the first by which a token ends, or all of them.
    pub(crate) fn feed_run(&mut self, piece: &[u8]) -> Result<Fed, TokenTooLong>
        requires { (bytes : List ℕ) × Lexes self.old bytes × (first_long (tokens bytes) ≡ None)
            × (length bytes + length piece.now < 2 ^ 64) }
        ensures within { IfOk result (λ fed. fed.bytes ≤ length piece.now) }
        ensures moves { IfOk result (λ fed. 0 < length piece.now → 0 < fed.bytes) }
        ensures stands { IfOk result (λ fed. (bytes : List ℕ) → Lexes self.old bytes →
            Lexes self.new (bytes ++ take fed.bytes piece.now)) }
        ensures settled { IfOk result (λ fed. (bytes : List ℕ) → Lexes self.old bytes →
            settled (bytes ++ take fed.bytes piece.now)
            ≡ settled bytes ++ named fed.ended self.new.inner.last) }
        ensures by_last { IfOk result (λ fed.
            OnSome fed.ended ((bytes : List ℕ) → Lexes self.old bytes →
            settled (bytes ++ take (fed.bytes - 1) piece.now) ≡ settled bytes)) }
        ensures short { IfOk result (λ fed. (bytes : List ℕ) → Lexes self.old bytes →
            first_long (tokens (bytes ++ take fed.bytes piece.now)) ≡ None) }
        ensures broke { IfErr result (λ e. (bytes : List ℕ) → Lexes self.old bytes →
            first_long (tokens bytes) ≡ None →
            BreaksWithin bytes piece.now e.at) }
    {
        let passed = self.passed;
        match self.inner.feed_run(piece) {
            Ok(fed) => match fed.ended {
                Some(span) => Ok(Fed {
                    bytes: fed.bytes,
                    ended: Some(Span {
                        at: span.at + passed,
                        len: span.len,
                    }),
                }),
                None => Ok(fed),
            },
            Err(long) => Err(TokenTooLong {
                at: long.at + passed,
            }),
        }
    }

    /// Passes over white space and whole tokens, where no token is open.
    pub(crate) fn pass(&mut self, count: u64)
        requires fits { (bytes : List ℕ) × Lexes self.old bytes × (length bytes + count < 2 ^ 64) }
        requires nothing_open { self.old.inner.open_text ≡ [] }
        ensures { (bytes part : List ℕ) → Lexes self.old bytes →
            first_long (tokens bytes) ≡ None → length part ≡ count →
            fresh_after true (bytes ++ part) ≡ true → first_long (tokens (bytes ++ part)) ≡ None →
            Lexes self.new (bytes ++ part) }
    {
        self.passed += count;
    }

    /// Ends the token that is open, if there is one, at the end of the file. After it only `token` is called.
    pub(crate) fn finish(&mut self) -> Option<Span>
        requires { (bytes : List ℕ) × Lexes self.old bytes × (first_long (tokens bytes) ≡ None)
            × (length bytes < 2 ^ 64) }
        ensures all { (bytes : List ℕ) → Lexes self.old bytes →
            heard bytes ≡ settled bytes ++ named result self.new.inner.last }
    {
        let passed = self.passed;
        match self.inner.finish() {
            Some(span) => Some(Span {
                at: span.at + passed,
                len: span.len,
            }),
            None => None,
        }
    }

    /// The bytes of the token that ended last.
    pub(crate) fn token(&self) -> &[u8]
        ensures { result.now ≡ self.now.inner.last }
    {
        self.inner.token()
    }
}
