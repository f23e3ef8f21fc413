//! The tokens of a body.

ghost use Rattle.std.specs.Prelude.{◌≡◌, ◌<◌, ◌≤◌, ◌+◌, ◌-◌, ◌++◌, ◌^◌, length, take, [], Ok};
ghost use Rattle.ccsl_vcd_read.specs.Step.{Says, row_of, time_says, changed_says, skipped_says, remark_says, word_says, hear_of};
ghost use Rattle.ccsl_vcd_read.specs.Run.{Runs, Made, Front, Fills};
ghost use Rattle.ccsl_vcd_lex.specs.Lexing.{Dark};
ghost use Rattle.ccsl_vcd.specs.Words.{dump, close};
ghost use Rattle.ccsl_vcd_read.specs.Meant.{meant, rest_of};

use crate::amid::Amid;
use crate::codes::Codes;
use crate::marks::Marks;
use crate::scan::{bits_at_front, digits_at_front, is_bit};
use crate::word::{Word, last_of, word_of};
use ccsl_base::{Block, MAX_TOKEN_BYTES, is_text};
use ccsl_vcd::VcdFault;
use ccsl_vcd_lex::{code_at_front, is_space, run_end};

/// What is kept of a body that is being read.
pub(crate) struct Body {
    pub binding: Codes,
    pub marks: Marks,
    pub present: u64,
    pub amid: Amid,
    pub dumping: bool,
}

// By hand and not derived: to the prover, an early return then drops one by a single call.
impl Drop for Body {
    fn drop(self) {
        let Body {
            binding: _binding,
            marks: _marks,
            present: _,
            amid: _,
            dumping: _,
        } = self;
    }
}

/// Gives out the row of the present time, if a clock ticks.
#[inline(always)]
pub(crate) fn give(body: &Body, out: &mut Block)
    requires { length out.old.rows + length (row_of body.now) ≤ out.old.room }
    ensures { out.new ≡ record out.old { rows = out.old.rows ++ row_of body.now } }
{
    if !body.marks.are_quiet() {
        body.marks.push_row(body.present, out);
    }
}

impl Body {
    #[inline(always)]
    fn time(&mut self, at: u64, time: u64, out: &mut Block) -> Result<(), VcdFault>
        requires { length out.old.rows < out.old.room }
        ensures said { Says (time_says self.old at time) result self.old self.new
            out.old.rows out.new.rows }
        ensures room { out.new.room ≡ out.old.room }
    {
        if time < self.present {
            return Err(VcdFault::TimeBack {
                at,
                present: self.present,
                time,
            });
        }
        if time > self.present {
            give(self, out);
            self.marks.age();
            self.present = time;
        }
        Ok(())
    }

    // A change of a code to a value that is 1 or not.
    #[inline(always)]
    fn change(&mut self, at: u64, code: &[u8], one: bool) -> Result<(), VcdFault>
        ensures { Says (changed_says self.old at code.now one) result self.old self.new [] [] }
    {
        let Some(number) = self.binding.find(code) else {
            return Err(VcdFault::UnknownCode { at });
        };
        self.marks.change(number, one, self.dumping);
        self.amid = Amid::Changes;
        Ok(())
    }

    // The code of a value that is skipped.
    fn pass(&mut self, at: u64, code: &[u8]) -> Result<(), VcdFault>
        ensures { Says (skipped_says self.old at code.now) result self.old self.new [] [] }
    {
        if self.binding.find(code).is_none() {
            return Err(VcdFault::UnknownCode { at });
        }
        self.amid = Amid::Changes;
        Ok(())
    }

    fn remark(&mut self, text: &[u8]) -> Result<(), VcdFault>
        ensures { Says (remark_says self.old text.now) result self.old self.new [] [] }
    {
        if is_text(text, b"$end") {
            self.amid = Amid::Changes;
        }
        Ok(())
    }

    fn dump(&mut self, at: u64) -> Result<(), VcdFault>
        ensures { Says (word_says self.old at dump) result self.old self.new [] [] }
    {
        if self.dumping {
            return Err(VcdFault::UnknownCommand { at });
        }
        self.dumping = true;
        Ok(())
    }

    fn close(&mut self, at: u64) -> Result<(), VcdFault>
        ensures { Says (word_says self.old at close) result self.old self.new [] [] }
    {
        if !self.dumping {
            return Err(VcdFault::UnknownCommand { at });
        }
        self.dumping = false;
        Ok(())
    }

    // What stands there until the next token.
    #[inline(always)]
    fn go(&mut self, amid: Amid) -> Result<(), VcdFault>
        ensures { Says (Ok (record self.old { amid = amid }, [])) result self.old self.new [] [] }
    {
        self.amid = amid;
        Ok(())
    }

    // A word in a change's place; `code` is the rest of its token.
    #[inline(always)]
    fn say(&mut self, at: u64, word: Word, code: &[u8], out: &mut Block) -> Result<(), VcdFault>
        requires { length out.old.rows < out.old.room }
        ensures said { Says (word_says self.old at (meant word code.now)) result self.old self.new
            out.old.rows out.new.rows }
        ensures room { out.new.room ≡ out.old.room }
    {
        match word {
            Word::Time(time) => self.time(at, time, out),
            Word::Scalar(one) => self.change(at, code, one),
            Word::Vector(one) => self.go(Amid::Code(one)),
            Word::Skipped => self.go(Amid::CodeSkipped),
            Word::Comment => self.go(Amid::Remark),
            Word::Dump => self.dump(at),
            Word::Close => self.close(at),
            Word::Gap if !self.dumping => Err(VcdFault::Gap { at }),
            Word::Gap | Word::Unknown => Err(VcdFault::UnknownCommand { at }),
            Word::BadTime => Err(VcdFault::BadTime { at }),
            Word::BadChange => Err(VcdFault::BadChange { at }),
        }
    }

    /// A token that ended, at a place.
    #[inline(always)]
    pub(crate) fn hear(&mut self, at: u64, text: &[u8], out: &mut Block) -> Result<(), VcdFault>
        requires { length out.old.rows < out.old.room }
        ensures said { Says (hear_of self.old at text.now) result self.old self.new
            out.old.rows out.new.rows }
        ensures room { out.new.room ≡ out.old.room }
    {
        match self.amid {
            Amid::Changes => {
                let code = if text.is_empty() { text } else { &text[1..] };
                self.say(at, word_of(text), code, out)
            }
            Amid::Remark => self.remark(text),
            Amid::Code(one) => self.change(at, text, one),
            Amid::CodeSkipped => self.pass(at, text),
        }
    }

    // Makes the change at the front of some bytes, if that is one of a bit to 0 or 1, of a short code that was found
    // before. It answers how many bytes that are, with the white space behind it, and 0 where it does nothing.
    #[inline(always)]
    fn bit_change(&mut self, bytes: &[u8]) -> usize
        ensures { Made self.old self.new bytes.now result }
    {
        if bytes.is_empty() || !is_bit(bytes[0]) || !self.amid.is_changes() {
            return 0;
        }
        let Some(code) = code_at_front(&bytes[1..]) else {
            return 0;
        };
        let Some(number) = self.binding.known(code.place) else {
            return 0;
        };
        self.marks.change(number, bytes[0] == b'1', self.dumping);
        code.len + 2
    }

    // The same of a vector of letters of the values 0 and 1. It is a call, so that the loop over changes of bits stays
    // small.
    #[inline(never)]
    fn vector_change(&mut self, bytes: &[u8]) -> usize
        ensures { Made self.old self.new bytes.now result }
    {
        if bytes.is_empty() || bytes[0] != b'b' || !self.amid.is_changes() {
            return 0;
        }
        let end = bits_at_front(&bytes[1..]) + 1;
        if end == 1 || end == bytes.len() || end > MAX_TOKEN_BYTES || !is_space(bytes[end]) {
            return 0;
        }
        let Some(code) = code_at_front(&bytes[end + 1..]) else {
            return 0;
        };
        let Some(number) = self.binding.known(code.place) else {
            return 0;
        };
        let one = last_of(b'b', &bytes[1..end]) == b'1';
        self.marks.change(number, one, self.dumping);
        end + code.len + 2
    }

    // The same of either.
    #[inline(always)]
    fn one_change(&mut self, bytes: &[u8]) -> usize
        ensures { Made self.old self.new bytes.now result }
    {
        let taken = self.bit_change(bytes);
        if taken > 0 || bytes.is_empty() || bytes[0] != b'b' {
            return taken;
        }
        self.vector_change(bytes)
    }

    // Makes the changes at the front of some bytes, as far as each is one of these. It answers how many bytes they
    // have.
    #[inline(always)]
    fn changes(&mut self, bytes: &[u8]) -> usize
        ensures { Made self.old self.new bytes.now result }
    {
        let mut rest = bytes;
        while !rest.is_empty() {
            let taken = self.one_change(rest);
            if taken == 0 {
                return bytes.len() - rest.len();
            }
            rest = &rest[taken..];
        }
        bytes.len()
    }

    // Hears a time at the front of some bytes, with white space behind it. It answers how many bytes the
    // token has, and 0 where it does nothing.
    #[inline(always)]
    fn short_time(&mut self, at: u64, bytes: &[u8], out: &mut Block) -> usize
        requires room { length out.old.rows < out.old.room }
        ensures heard { Front self.old self.new at bytes.now result out.old.rows out.new.rows }
        ensures room { out.new.room ≡ out.old.room }
    {
        if bytes.is_empty() || bytes[0] != b'#' || !self.amid.is_changes() {
            return 0;
        }
        let digits = digits_at_front(&bytes[1..]);
        let end = digits.count + 1;
        if digits.count == 0
            || end == bytes.len()
            || end > MAX_TOKEN_BYTES
            || !is_space(bytes[end])
        {
            return 0;
        }
        match self.time(at, digits.value, out) {
            Ok(()) => end,
            Err(_) => 0,
        }
    }

    // The same, with the white space behind it.
    #[inline(always)]
    fn time_and_space(&mut self, at: u64, bytes: &[u8], out: &mut Block) -> usize
        requires room { length out.old.rows < out.old.room }
        ensures within { result ≤ length bytes.now }
        ensures runs { Runs self.old self.new at (take result bytes.now) out.old.rows out.new.rows }
        ensures one { Dark (take (result - 1) bytes.now) }
        ensures none { result ≡ 0 → (self.new ≡ self.old) × (out.new.rows ≡ out.old.rows) }
        ensures room { out.new.room ≡ out.old.room }
    {
        let time = self.short_time(at, bytes, out);
        if time == 0 {
            return 0;
        }
        time + 1
    }

    // Hears what stands at the front of some bytes: a byte of white space, or a token and the white space behind it. It
    // answers how many bytes that are: none where no token ends there, or the token is refused.
    #[inline(never)]
    fn token(&mut self, at: u64, bytes: &[u8], out: &mut Block) -> usize
        requires room { length out.old.rows < out.old.room }
        ensures within { result ≤ length bytes.now }
        ensures runs { Runs self.old self.new at (take result bytes.now) out.old.rows out.new.rows }
        ensures one { Dark (take (result - 1) bytes.now) }
        ensures room { out.new.room ≡ out.old.room }
    {
        let end = run_end(bytes, 0);
        if end == bytes.len() || end > MAX_TOKEN_BYTES {
            return 0;
        }
        if end == 0 {
            return 1;
        }
        match self.hear(at, &bytes[..end], out) {
            Ok(()) => end + 1,
            Err(_) => 0,
        }
    }

    // Hears what stands at the front of some bytes: a time and the changes behind it, or whatever else. It stops behind
    // a time that fills the block. It answers how many bytes that are: none where no token ends there, or the token is
    // refused.
    #[inline(always)]
    fn step(&mut self, at: u64, bytes: &[u8], out: &mut Block) -> usize
        requires room { length out.old.rows < out.old.room }
        ensures within { result ≤ length bytes.now }
        ensures runs { Runs self.old self.new at (take result bytes.now) out.old.rows out.new.rows }
        // Where the block is full, the last byte ended the one token that was heard.
        ensures full { length out.new.rows ≡ out.new.room → Dark (take (result - 1) bytes.now) }
        ensures room { out.new.room ≡ out.old.room }
    {
        let time = self.time_and_space(at, bytes, out);
        if out.is_full() {
            return time;
        }
        let taken = time + self.changes(&bytes[time..]);
        if taken > 0 {
            return taken;
        }
        self.token(at, bytes, out)
    }

    /// Hears the tokens that lie whole in a piece, from its front up to one that is refused, or where the block became
    /// full. It answers how many bytes that are.
    #[inline(never)]
    pub(crate) fn run(&mut self, at: u64, piece: &[u8], out: &mut Block) -> usize
        requires room { length out.old.rows < out.old.room }
        requires fits { at + length piece.now < 2 ^ 64 }
        ensures within { result ≤ length piece.now }
        ensures runs { Runs self.old self.new at (take result piece.now) out.old.rows out.new.rows }
        ensures full { length out.new.rows ≡ out.new.room →
            Fills self.old at (take result piece.now) out.old.rows out.old.room }
        ensures room { out.new.room ≡ out.old.room }
    {
        let mut rest = piece;
        while !rest.is_empty() && !out.is_full() {
            let from = piece.len() - rest.len();
            let taken = self.step(at + from as u64, rest, out);
            if taken == 0 {
                return from;
            }
            rest = &rest[taken..];
        }
        piece.len() - rest.len()
    }
}
