//! The tokenizer, fed byte by byte or piece by piece.

ghost use Rattle.std.specs.Prelude.{◌≡◌, ℕ, List, [], ◌∷◌, ◌++◌, length, take, ◌+◌, ◌-◌, ◌<◌, ◌≤◌, ◌^◌, IsSome, OnSome, IfNone, IfOk, IfErr, MatchResult};
ghost use Rattle.std.specs.Prelude.{slice_range, Some, None, true, vec_len};
ghost use Rattle.std.specs.List.{prefix_len};
ghost use Rattle.ccsl_vcd_lex.specs.Tokens.{is_white, tokens, heard, settled, too_long};
ghost use Rattle.ccsl_vcd_lex.specs.LongTokens.{first_long};
ghost use Rattle.ccsl_vcd_lex.specs.Lexing.{StandsFor, BreaksWithin, named, Spans};

use crate::scan::{LANES, copy_part, is_space, run_end, white_end};
use crate::span::{Fed, Span, TokenTooLong};
use ccsl_base::{MAX_TOKEN_BYTES, Memory};
use std::alloc::{AllocError, Global};
use std::marker::Model;
use std::mem;

/// Takes the bytes of a file, and says which tokens end. It keeps the token that is open and the one that ended last.
#[derive(Drop)]
pub struct Tokenizer {
    // the open token's bytes are the first `current_len`
    current: Vec<u8>,
    current_len: usize,
    // those of the token that ended last are the first `last_len`
    last: Vec<u8>,
    last_len: usize,
    begin: u64,
    failed: bool,
}

impl Model for Tokenizer {
    ghost use Rattle.std.specs.Prelude.{◌≡◌, ◌≤◌, take, vec_len};
    ghost use Rattle.ccsl_base.specs.declared.limits.TheConstants.{MAX_TOKEN_BYTES};
    ghost use Rattle.ccsl_vcd_lex.specs.Lexing.{Lexing};

    ghost Value = { Lexing };

    ghost view = { λ t. record {
      begin = t.begin;
      open_text = take t.current_len t.current.items;
      last = take t.last_len t.last.items;
      failed = t.failed;
    } };

    ghost invariant = { λ t.
        (vec_len t.current ≡ 65552) × (t.current_len ≤ MAX_TOKEN_BYTES)
        × (vec_len t.last ≡ 65552) × (t.last_len ≤ MAX_TOKEN_BYTES) };
}

// A buffer with room for the longest token, and for one vector behind it.
fn room(alloc: Global) -> Result<Vec<u8>, AllocError>
    ensures { IfOk result (λ v. vec_len v ≡ 65552) }
{
    vec![in alloc; 0; MAX_TOKEN_BYTES + LANES]
}

impl Tokenizer {
    /// A tokenizer before the first byte, where no token has ended.
    pub fn open(alloc: Global) -> Result<Tokenizer, Memory>
        ensures stands { IfOk result (λ t. StandsFor t []) }
        ensures last { IfOk result (λ t. t.last ≡ []) }
    {
        let current = room(alloc)?;
        let last = room(alloc)?;
        Ok(Tokenizer {
            current,
            current_len: 0,
            last,
            last_len: 0,
            begin: 0,
            failed: false,
        })
    }

    // One more byte of the open token.
    fn push(&mut self, byte: u8)
        requires { length self.old.open_text < MAX_TOKEN_BYTES }
        ensures { self.new ≡ record self.old { open_text = self.old.open_text ++ byte ∷ [] } }
    {
        self.current[self.current_len] = byte;
        self.current_len += 1;
    }

    // A part of a piece, as more bytes of the open token.
    fn append(&mut self, piece: &[u8], start: usize, end: usize)
        requires ordered { start ≤ end }
        requires within { end ≤ length piece.now }
        requires room { length self.old.open_text + (end - start) ≤ MAX_TOKEN_BYTES }
        ensures { self.new ≡ record
            self.old { open_text = self.old.open_text ++ slice_range piece.now start end } }
    {
        copy_part(
            self.current.as_mut_slice(),
            self.current_len,
            piece,
            start,
            end,
        );
        self.current_len += end - start;
    }

    // White space where no token is open.
    fn skip(&mut self, count: u64)
        requires { self.old.begin + count < 2 ^ 64 }
        ensures { self.new ≡ record self.old { begin = self.old.begin + count } }
    {
        self.begin += count;
    }

    // The white space at the front of a piece, where no token is open.
    fn skip_front(&mut self, piece: &[u8]) -> usize
        requires { self.old.begin + length piece.now < 2 ^ 64 }
        ensures after { self.new ≡ record self.old { begin = self.old.begin + result } }
        ensures within { result ≤ length piece.now }
        ensures open { 0 < length self.old.open_text → result ≡ 0 }
        ensures none { self.old.open_text ≡ [] → result ≡ prefix_len is_white piece.now }
    {
        if self.current_len > 0 {
            return 0;
        }
        let count = white_end(piece, 0);
        self.skip(count as u64);
        count
    }

    // The open token becomes the one that ended last.
    fn close(&mut self) -> Span
        ensures span { result ≡ record { at = self.old.begin; len = length self.old.open_text } }
        ensures after { self.new ≡ record self.old { open_text = []; last = self.old.open_text } }
    {
        let span = Span {
            at: self.begin,
            len: self.current_len as u32,
        };
        mem::swap(&mut self.current, &mut self.last);
        self.last_len = self.current_len;
        self.current_len = 0;
        span
    }

    // A byte of white space behind the open token.
    fn end_token(&mut self) -> Span
        requires { self.old.begin + length self.old.open_text + 1 < 2 ^ 64 }
        ensures span { result ≡ record { at = self.old.begin; len = length self.old.open_text } }
        ensures after { self.new ≡ record self.old {
          begin = self.old.begin + length self.old.open_text + 1;
          open_text = [];
          last = self.old.open_text;
        } }
    {
        let span = self.close();
        self.begin += u64::from(span.len) + 1;
        span
    }

    // The open token has more than 65,536 bytes.
    fn refuse(&mut self) -> TokenTooLong
        ensures at { result ≡ record { at = self.old.begin } }
        ensures after { self.new ≡ record self.old { failed = true } }
    {
        self.failed = true;
        TokenTooLong { at: self.begin }
    }

    /// Takes the next byte, and says which token it ends. Once a token was too long every call says so again.
    pub fn feed(&mut self, byte: u8) -> Result<Option<Span>, TokenTooLong>
        requires { (bytes : List ℕ) × StandsFor self.old bytes × (length bytes + 1 < 2 ^ 64) }
        ensures stands { (bytes : List ℕ) → StandsFor self.old bytes →
            StandsFor self.new (bytes ++ byte ∷ []) }

        ensures settled { IfOk result (λ found. (bytes : List ℕ) → StandsFor self.old bytes →
            settled (bytes ++ byte ∷ []) ≡ settled bytes ++ named found self.new.last) }
        ensures span { IfOk result (λ found. Spans found self.new.last) }
        ensures keeps { MatchResult result (λ found. IfNone found (self.new.last ≡ self.old.last))
            (λ _. self.new.last ≡ self.old.last) }
        ensures short { IfOk result (λ _. (bytes : List ℕ) → StandsFor self.old bytes →
            first_long (tokens (bytes ++ byte ∷ [])) ≡ None) }

        ensures long { IfErr result (λ e. (bytes : List ℕ) → StandsFor self.old bytes →
            first_long (tokens (bytes ++ byte ∷ [])) ≡ Some e.at) }
        ensures broke { IfErr result (λ e. (bytes : List ℕ) → StandsFor self.old bytes →
            first_long (tokens bytes) ≡ None →
            settled (bytes ++ byte ∷ []) ≡ settled bytes ++ too_long e.at ∷ []) }
        ensures again { (bytes : List ℕ) (at : ℕ) → StandsFor self.old bytes →
            first_long (tokens bytes) ≡ Some at →
            result ≡ Err (record { at = at }) }
    {
        if self.failed {
            return Err(TokenTooLong { at: self.begin });
        }
        if is_space(byte) {
            if self.current_len == 0 {
                self.skip(1);
                return Ok(None);
            }
            return Ok(Some(self.end_token()));
        }
        if self.current_len == MAX_TOKEN_BYTES {
            return Err(self.refuse());
        }
        self.push(byte);
        Ok(None)
    }

    /// Takes the bytes of a piece up to the first by which a token ends, or all of them, as `feed` takes one.
    pub fn feed_run(&mut self, piece: &[u8]) -> Result<Fed, TokenTooLong>
        requires { (bytes : List ℕ) × StandsFor self.old bytes
            × (length bytes + length piece.now < 2 ^ 64) }
        ensures within { IfOk result (λ fed. fed.bytes ≤ length piece.now) }
        ensures moves { IfOk result (λ fed. 0 < length piece.now → 0 < fed.bytes) }
        ensures stops { IfOk result (λ fed. fed.bytes < length piece.now → IsSome fed.ended) }

        ensures stands { IfOk result (λ fed. (bytes : List ℕ) → StandsFor self.old bytes →
            StandsFor self.new (bytes ++ take fed.bytes piece.now)) }
        ensures settled { IfOk result (λ fed. (bytes : List ℕ) → StandsFor self.old bytes →
            settled (bytes ++ take fed.bytes piece.now)
            ≡ settled bytes ++ named fed.ended self.new.last) }
        ensures by_last { IfOk result (λ fed.
            OnSome fed.ended ((bytes : List ℕ) → StandsFor self.old bytes →
            settled (bytes ++ take (fed.bytes - 1) piece.now) ≡ settled bytes)) }
        ensures span { IfOk result (λ fed. Spans fed.ended self.new.last) }
        ensures keeps { MatchResult result (λ fed. IfNone fed.ended (self.new.last ≡ self.old.last))
            (λ _. self.new.last ≡ self.old.last) }
        ensures short { IfOk result (λ fed. (bytes : List ℕ) → StandsFor self.old bytes →
            first_long (tokens (bytes ++ take fed.bytes piece.now)) ≡ None) }

        ensures still { IfErr result (λ _. (bytes : List ℕ) → StandsFor self.old bytes →
            StandsFor self.new (bytes ++ piece.now)) }
        ensures long { IfErr result (λ e. (bytes : List ℕ) → StandsFor self.old bytes →
            first_long (tokens (bytes ++ piece.now)) ≡ Some e.at) }
        ensures broke { IfErr result (λ e. (bytes : List ℕ) → StandsFor self.old bytes →
            first_long (tokens bytes) ≡ None →
            BreaksWithin bytes piece.now e.at) }
        ensures again { (bytes : List ℕ) (at : ℕ) → StandsFor self.old bytes →
            first_long (tokens bytes) ≡ Some at →
            result ≡ Err (record { at = at }) }
    {
        if self.failed {
            return Err(TokenTooLong { at: self.begin });
        }
        let start = self.skip_front(piece);
        let end = run_end(piece, start);
        if end - start > MAX_TOKEN_BYTES - self.current_len {
            return Err(self.refuse());
        }
        self.append(piece, start, end);
        if end == piece.len() {
            return Ok(Fed {
                bytes: end,
                ended: None,
            });
        }
        Ok(Fed {
            bytes: end + 1,
            ended: Some(self.end_token()),
        })
    }

    /// Ends the token that is open, if there is one, at the end of the file. After it only `token` is called.
    pub fn finish(&mut self) -> Option<Span>
        requires { (bytes : List ℕ) × StandsFor self.old bytes
            × (first_long (tokens bytes) ≡ None) }
        ensures all { (bytes : List ℕ) → StandsFor self.old bytes →
            heard bytes ≡ settled bytes ++ named result self.new.last }
        ensures span { Spans result self.new.last }
        ensures keeps { IfNone result (self.new.last ≡ self.old.last) }
    {
        if self.current_len == 0 {
            return None;
        }
        Some(self.close())
    }

    /// The bytes of the token that ended last; none before one has.
    pub fn token(&self) -> &[u8]
        ensures { result.now ≡ self.now.last }
    {
        &self.last[..self.last_len]
    }
}
