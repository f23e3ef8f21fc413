//! The tokens of a dump's body.

ghost use Rattle.std.specs.Prelude.{◌≡◌, ◌⊎◌, ◌≤◌, ◌<◌, ◌+◌, ◌^◌, ℕ, List, [], ◌∷◌, length, take, drop, true, false, nat_lt, IfOk, IfErr};
ghost use Rattle.ccsl_vcd_lex.specs.Tokens.{token};
ghost use Rattle.ccsl_vcd.specs.Words.{is_scalar, dump};
ghost use Rattle.ccsl_events.specs.Keeping.{Keeps};
ghost use Rattle.ccsl_events.specs.Dump.{Plan, Place, begin, remark, code_of, code_skipped, goes, changed, passed, time_says, block_says, gap_says, end_says};
ghost use Rattle.ccsl_events.specs.Dump.{word_says, token_says, may_end};
ghost use Rattle.ccsl_events.specs.Standing.{are_skipped, counted, Stands, Answers};
ghost use Rattle.ccsl_events.specs.Times.{IsTime};
ghost use Rattle.ccsl_events.specs.Run.{IsOpen, Runs, Takes};
ghost use Rattle.ccsl_events.specs.Meant.{meant};

use crate::codes::Entry;
use crate::output::FULL;
use crate::present::{Digits, Present, digits_at_front};
use crate::values::Values;
use crate::word::{Word, are_letters, is_letter, word_of};
use ccsl_base::{MAX_TOKEN_BYTES, Memory, is_text};
use ccsl_vcd::VcdFault;
use ccsl_vcd_lex::{code_at_front, run_end};
use std::alloc::Global;

/// What is done where values are not recorded for a while.
#[derive(Clone, Copy)]
pub enum Gaps {
    Refuse,
    Skip,
}

/// What the next token is.
#[derive(Clone, Copy, PartialEq, Eq)]
pub(crate) enum Amid {
    Changes,
    Remark,
    /// the code of a vector
    Code,
    /// the code of a value that is skipped
    CodeSkipped,
}

/// What is kept of a body that is being read.
pub struct Body {
    pub(crate) values: Values,
    pub(crate) gaps: Gaps,
    pub(crate) present: Present,
    pub(crate) amid: Amid,
    /// the letters of the vector whose code is the next token
    pub(crate) letters: Vec<u8>,
    pub(crate) is_dumping: bool,
    /// whether values are recorded
    pub(crate) is_on: bool,
    /// how many times have a row
    pub(crate) times: u64,
}

// By hand and not derived: to the prover, an early return then drops one by a single call.
impl Drop for Body {
    fn drop(self) {
        let Body {
            values: _values,
            gaps: _,
            present: _,
            amid: _,
            letters: _letters,
            is_dumping: _,
            is_on: _,
            times: _,
        } = self;
    }
}

impl Body {
    pub(crate) fn new(alloc: Global, values: Values, gaps: Gaps) -> Result<Body, Memory>
        ensures { IfOk result (λ b. (plan : Plan) → Keeps plan begin.views values →
            are_skipped gaps ≡ plan.skips → Stands plan begin b) }
    {
        let letters = Vec::with_capacity(alloc, MAX_TOKEN_BYTES)?;
        Ok(Body {
            values,
            gaps,
            present: Present::new(0),
            amid: Amid::Changes,
            letters,
            is_dumping: false,
            is_on: true,
            times: 0,
        })
    }

    /// How many times have a row so far.
    pub fn times(&self) -> u64
        ensures { (plan : Plan) (p : Place) → Stands plan p self.now → result ≡ counted p.times }
    {
        self.times
    }

    /// The present time is over: its row is appended, if it has one.
    #[inline(always)]
    pub fn settle(&mut self, out: &mut Vec<u8>) -> Result<(), VcdFault>
        ensures { (plan : Plan) (p : Place) → Stands plan p self.old →
            Answers plan p.written (goes (passed plan p))
            result self.new out.old.items out.new.items }
    {
        let has_row = self.values.settle(&self.present, out)?;
        self.times = self.times.saturating_add(u64::from(has_row));
        Ok(())
    }

    // Whether a time is later than the present one. An earlier one is refused.
    #[inline(always)]
    fn is_later(&self, at: u64, time: u64) -> Result<bool, VcdFault>
        ensures later { IfOk result (λ is_later. (nat_lt time self.now.present ≡ false) ×
            (is_later ≡ nat_lt self.now.present time)) }
        ensures back { IfErr result (λ f. (nat_lt time self.now.present ≡ true) ×
            (f ≡ VcdFault.TimeBack at self.now.present time)) }
    {
        let present = self.present.time();
        if time < present {
            return Err(VcdFault::TimeBack { at, present, time });
        }
        Ok(time > present)
    }

    fn time(&mut self, at: u64, time: u64, out: &mut Vec<u8>) -> Result<(), VcdFault>
        ensures { (plan : Plan) (p : Place) → Stands plan p self.old →
            Answers plan p.written (time_says plan p at time)
            result self.new out.old.items out.new.items }
    {
        if self.is_later(at, time)? {
            self.settle(out)?;
            self.present = Present::new(time);
        }
        Ok(())
    }

    // The same for a time whose digits are the first of some bytes.
    #[inline(always)]
    fn front_time(
        &mut self,
        at: u64,
        digits: Digits,
        bytes: &[u8],
        out: &mut Vec<u8>,
    ) -> Result<(), VcdFault>
        requires { IsTime digits.count digits.time bytes.now }
        ensures { (plan : Plan) (p : Place) → Stands plan p self.old →
            Answers plan p.written (time_says plan p at digits.time)
            result self.new out.old.items out.new.items }
    {
        if self.is_later(at, digits.time)? {
            self.settle(out)?;
            self.present.set_front(digits, bytes);
        }
        Ok(())
    }

    fn begin_block(&mut self, at: u64) -> Result<(), VcdFault>
        ensures { (plan : Plan) (p : Place) → Stands plan p self.old →
            Answers plan p.written (block_says p at)
            result self.new [] [] }
    {
        if self.is_dumping {
            return Err(VcdFault::UnknownCommand { at });
        }
        self.is_dumping = true;
        Ok(())
    }

    fn begin_gap(&mut self, at: u64) -> Result<(), VcdFault>
        ensures { (plan : Plan) (p : Place) → Stands plan p self.old →
            Answers plan p.written (gap_says plan p at)
            result self.new [] [] }
    {
        self.begin_block(at)?;
        match self.gaps {
            Gaps::Refuse => Err(VcdFault::Gap { at }),
            Gaps::Skip => {
                self.is_on = false;
                self.values.forget();
                Ok(())
            }
        }
    }

    fn end_block(&mut self, at: u64) -> Result<(), VcdFault>
        ensures { (plan : Plan) (p : Place) → Stands plan p self.old →
            Answers plan p.written (end_says p at)
            result self.new [] [] }
    {
        if !self.is_dumping {
            return Err(VcdFault::UnknownCommand { at });
        }
        self.is_dumping = false;
        Ok(())
    }

    // A command that begins a block of values: all of it but `$dumpoff`.
    fn block(&mut self, at: u64, text: &[u8]) -> Result<(), VcdFault>
        ensures { (plan : Plan) (p : Place) → Stands plan p self.old →
            Answers plan p.written (word_says plan p (token at text.now) dump)
            result self.new [] [] }
    {
        if is_text(text, b"$dumpon") {
            self.is_on = true;
        }
        self.begin_block(at)
    }

    // A vector, whose code is the next token.
    fn vector(&mut self, letters: &[u8]) -> Result<(), VcdFault>
        ensures { (plan : Plan) (p : Place) → Stands plan p self.old →
            Answers plan p.written (goes (record p { amid = code_of letters.now }))
            result self.new [] [] }
    {
        self.letters.clear();
        self.letters.extend_from_slice(letters)?;
        self.amid = Amid::Code;
        Ok(())
    }

    // A change to one letter: the letter, and the code behind it.
    fn scalar(&mut self, at: u64, letter: u8, code: &[u8]) -> Result<(), VcdFault>
        ensures { (plan : Plan) (p : Place) → Stands plan p self.old →
            self.old.amid ≡ Amid.Changes →
            Answers plan p.written (changed plan p at code.now (letter ∷ []))
            result self.new [] [] }
    {
        self.values
            .change(at, code, &[letter], self.is_dumping, self.is_on)
    }

    // A word in a change's place, and its token.
    fn say(&mut self, at: u64, word: Word, text: &[u8], out: &mut Vec<u8>) -> Result<(), VcdFault>
        ensures { (plan : Plan) (p : Place) → Stands plan p self.old →
            self.old.amid ≡ Amid.Changes →
            Answers plan p.written (word_says plan p (token at text.now) (meant word text.now))
            result self.new out.old.items out.new.items }
    {
        match word {
            Word::Time(time) => self.time(at, time, out),
            Word::Scalar => match text {
                [letter, code @ ..] => self.scalar(at, *letter, code),
                [] => Err(VcdFault::BadChange { at }),
            },
            Word::Vector => match text {
                [_, letters @ ..] => self.vector(letters),
                [] => Err(VcdFault::BadChange { at }),
            },
            Word::Skipped => {
                self.amid = Amid::CodeSkipped;
                Ok(())
            }
            Word::Comment => {
                self.amid = Amid::Remark;
                Ok(())
            }
            Word::Block => self.block(at, text),
            Word::Gap => self.begin_gap(at),
            Word::End => self.end_block(at),
            Word::BadTime => Err(VcdFault::BadTime { at }),
            Word::BadChange => Err(VcdFault::BadChange { at }),
            Word::Unknown => Err(VcdFault::UnknownCommand { at }),
        }
    }

    fn vector_code(&mut self, at: u64, code: &[u8]) -> Result<(), VcdFault>
        ensures { (plan : Plan) (p : Place) → Stands plan p self.old →
            Answers plan p.written (changed plan p at code.now self.old.letters.items)
            result self.new [] [] }
    {
        self.amid = Amid::Changes;
        self.values.change(
            at,
            code,
            self.letters.as_slice(),
            self.is_dumping,
            self.is_on,
        )
    }

    fn skipped_code(&mut self, at: u64, code: &[u8]) -> Result<(), VcdFault>
        ensures { (plan : Plan) (p : Place) → Stands plan p self.old →
            Answers plan p.written (token_says plan p (token at code.now) code_skipped)
            result self.new [] [] }
    {
        if self.values.codes.find(code) == Entry::Undeclared {
            return Err(VcdFault::UnknownCode { at });
        }
        self.amid = Amid::Changes;
        Ok(())
    }

    fn remark(&mut self, text: &[u8]) -> Result<(), VcdFault>
        ensures { (at : ℕ) (plan : Plan) (p : Place) → Stands plan p self.old →
            Answers plan p.written (token_says plan p (token at text.now) remark)
            result self.new [] [] }
    {
        if is_text(text, b"$end") {
            self.amid = Amid::Changes;
        }
        Ok(())
    }

    /// Takes a token that ended, at a place.
    pub(crate) fn hear(&mut self, at: u64, text: &[u8], out: &mut Vec<u8>) -> Result<(), VcdFault>
        ensures { (plan : Plan) (p : Place) → Stands plan p self.old →
            Answers plan p.written (token_says plan p (token at text.now) p.amid)
            result self.new out.old.items out.new.items }
    {
        match self.amid {
            Amid::Changes => self.say(at, word_of(text), text, out),
            Amid::Remark => self.remark(text),
            Amid::Code => self.vector_code(at, text),
            Amid::CodeSkipped => self.skipped_code(at, text),
        }
    }

    // A time at the front of some bytes, behind its `#`. Like the next two it answers how many bytes are taken from the
    // token's first to the white space behind it, and none where it does nothing.
    #[inline(always)]
    fn short_time(&mut self, at: u64, bytes: &[u8], out: &mut Vec<u8>) -> Result<usize, VcdFault>
        ensures within { IfOk result (λ taken. taken ≤ length bytes.now + 1) }
        ensures takes { (plan : Plan) (p : Place) → Stands plan p self.old →
            self.old.amid ≡ Amid.Changes →
            Takes plan p at (35 ∷ bytes.now) result self.new out.old.items out.new.items }
    {
        let Some(digits) = digits_at_front(bytes) else {
            return Ok(0);
        };
        self.front_time(at, digits, bytes, out)?;
        Ok(digits.count + 2)
    }

    // A change to one letter, of a short code.
    #[inline(always)]
    fn short_change(&mut self, letter: u8, bytes: &[u8]) -> Result<usize, Memory>
        ensures within { IfOk result (λ taken. taken ≤ length bytes.now + 1) }
        ensures runs { IfOk result (λ taken. (at : ℕ) (plan : Plan) (p : Place) (out : List ℕ) →
            Stands plan p self.old →
            self.old.amid ≡ Amid.Changes → is_scalar letter ≡ true →
            Runs plan p at (take taken (letter ∷ bytes.now)) self.new out out) }
    {
        let Some(code) = code_at_front(bytes) else {
            return Ok(0);
        };
        let known = self.values.codes.at(code.place);
        if !self
            .values
            .change_known(known, &[letter], self.is_dumping, self.is_on)?
        {
            return Ok(0);
        }
        Ok(code.len + 2)
    }

    // A change to several letters, of a short code. It is a call, so that the loop over changes of bits stays small.
    #[inline(never)]
    fn short_vector(&mut self, bytes: &[u8]) -> Result<usize, Memory>
        ensures within { IfOk result (λ taken. taken ≤ length bytes.now + 1) }
        ensures runs { IfOk result (λ taken. (at : ℕ) (plan : Plan) (p : Place) (out : List ℕ) →
            Stands plan p self.old →
            self.old.amid ≡ Amid.Changes →
            Runs plan p at (take taken (98 ∷ bytes.now)) self.new out out) }
    {
        let end = run_end(bytes, 0);
        if end == 0 || end >= bytes.len() || end >= MAX_TOKEN_BYTES {
            return Ok(0);
        }
        let letters = &bytes[..end];
        let Some(code) = code_at_front(&bytes[end + 1..]) else {
            return Ok(0);
        };
        let known = self.values.codes.at(code.place);
        if !are_letters(letters)
            || !self
                .values
                .change_known(known, letters, self.is_dumping, self.is_on)?
        {
            return Ok(0);
        }
        Ok(end + code.len + 3)
    }

    // Takes a token of those that a dump has most, if one stands at the front of some bytes.
    #[inline(always)]
    fn frequent(&mut self, at: u64, bytes: &[u8], out: &mut Vec<u8>) -> Result<usize, VcdFault>
        ensures within { IfOk result (λ taken. taken ≤ length bytes.now) }
        ensures takes { (plan : Plan) (p : Place) → Stands plan p self.old →
            Takes plan p at bytes.now result self.new out.old.items out.new.items }
    {
        if self.amid != Amid::Changes {
            return Ok(0);
        }
        match bytes {
            [b'#', digits @ ..] => self.short_time(at, digits, out),
            [b'b', letters @ ..] => Ok(self.short_vector(letters)?),
            [letter, code @ ..] if is_letter(*letter) => Ok(self.short_change(*letter, code)?),
            _ => Ok(0),
        }
    }

    // Takes whatever stands at the front of some bytes: a byte of white space, or a token and the white space behind
    // it. It answers how many bytes that are, and none where no token ends there.
    #[inline(never)]
    fn whole_token(&mut self, at: u64, bytes: &[u8], out: &mut Vec<u8>) -> Result<usize, VcdFault>
        ensures within { IfOk result (λ taken. taken ≤ length bytes.now) }
        ensures takes { (plan : Plan) (p : Place) → Stands plan p self.old →
            Takes plan p at bytes.now result self.new out.old.items out.new.items }
        ensures ends { IfOk result (λ taken. taken ≡ 0 → IsOpen bytes.now) }
    {
        let end = run_end(bytes, 0);
        if end > MAX_TOKEN_BYTES {
            return Err(VcdFault::TokenTooLong { at });
        }
        if end == bytes.len() {
            return Ok(0);
        }
        if end > 0 {
            self.hear(at, &bytes[..end], out)?;
        }
        Ok(end + 1)
    }

    // The same. The place of its answer is made where this is called, and not for each frequent token.
    #[inline(always)]
    fn token(&mut self, at: u64, bytes: &[u8], out: &mut Vec<u8>) -> Result<usize, VcdFault>
        ensures within { IfOk result (λ taken. taken ≤ length bytes.now) }
        ensures takes { (plan : Plan) (p : Place) → Stands plan p self.old →
            Takes plan p at bytes.now result self.new out.old.items out.new.items }
        ensures ends { IfOk result (λ taken. taken ≡ 0 → IsOpen bytes.now) }
    {
        self.whole_token(at, bytes, out)
    }

    #[inline(always)]
    fn step(&mut self, at: u64, bytes: &[u8], out: &mut Vec<u8>) -> Result<usize, VcdFault>
        ensures within { IfOk result (λ taken. taken ≤ length bytes.now) }
        ensures takes { (plan : Plan) (p : Place) → Stands plan p self.old →
            Takes plan p at bytes.now result self.new out.old.items out.new.items }
        ensures ends { IfOk result (λ taken. taken ≡ 0 → IsOpen bytes.now) }
    {
        let taken = self.frequent(at, bytes, out)?;
        if taken > 0 {
            return Ok(taken);
        }
        self.token(at, bytes, out)
    }

    /// Takes the tokens that lie whole in a piece, and stops where the output is full. It answers how many bytes they
    /// have.
    #[inline(never)]
    pub(crate) fn run(
        &mut self,
        at: u64,
        piece: &[u8],
        out: &mut Vec<u8>,
    ) -> Result<usize, VcdFault>
        ensures within { IfOk result (λ taken. taken ≤ length piece.now) }
        ensures takes { (plan : Plan) (p : Place) → Stands plan p self.old →
            at + length piece.now < 2 ^ 64 →
            Takes plan p at piece.now result self.new out.old.items out.new.items }
        ensures stops { IfOk result (λ taken. IsOpen (drop taken piece.now) ⊎
            (FULL ≤ length out.new.items)) }
    {
        let end = at.wrapping_add(piece.len() as u64);
        let mut rest = piece;
        'tokens: while !rest.is_empty() && out.len() < FULL {
            let taken = self.step(end.wrapping_sub(rest.len() as u64), rest, out)?;
            if taken == 0 {
                return Ok(piece.len() - rest.len());
            }
            rest = &rest[taken..];
        }
        Ok(piece.len() - rest.len())
    }

    /// Whether the dump may end here.
    pub(crate) fn may_end(&self) -> bool
        ensures { (plan : Plan) (p : Place) → Stands plan p self.now → result ≡ may_end p }
    {
        self.amid == Amid::Changes && !self.is_dumping
    }
}
