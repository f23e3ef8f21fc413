//! The present time of a dump.

ghost use Rattle.std.specs.Prelude.{◌≡◌, decimal, IfSome};
ghost use Rattle.ccsl_triggers.specs.Output.{time_line};
ghost use Rattle.ccsl_events.specs.Times.{IsTime};

use ccsl_triggers::{COPIED, TimeLine};
use ccsl_vcd_lex::is_space;
use core::dec2flt::read_digits;
use itoa::Buffer;
use std::marker::Model;

/// A number of digits of which any value fits 64 bits.
const DIGITS: usize = 19;

/// How many digits a time has, and the time, in the dump's own unit.
#[derive(Clone, Copy)]
pub(crate) struct Digits {
    pub count: usize,
    pub time: u64,
}

/// The digits of a time at the front of some bytes, with white space behind them.
#[inline(always)]
pub(crate) fn digits_at_front(bytes: &[u8]) -> Option<Digits>
    ensures { IfSome result (λ digits. IsTime digits.count digits.time bytes.now) }
{
    let (count, time) = read_digits(bytes, 0, 0);
    if count == 0 || count > DIGITS || count >= bytes.len() || !is_space(bytes[count]) {
        return None;
    }
    Some(Digits { count, time })
}

/// A time, with the line that its row begins with. Contracts see the time.
#[derive(Drop)]
pub(crate) struct Present {
    time: u64,
    line: TimeLine,
}

impl Model for Present {
    ghost use Rattle.std.specs.Prelude.{◌≡◌, ℕ, decimal};
    ghost use Rattle.ccsl_triggers.specs.Output.{time_line};

    ghost Value = { ℕ };

    ghost view = { λ p. p.time };

    ghost invariant = { λ p. p.line ≡ time_line (decimal p.time) };
}

impl Present {
    /// A time.
    #[inline(never)]
    pub(crate) fn new(time: u64) -> Present
        ensures { result ≡ time }
    {
        let mut buffer = Buffer::new();
        let line = TimeLine::new(buffer.format(time).as_bytes());
        Present { time, line }
    }

    // It is a call, so that a time whose digits are the line's makes no other one.
    #[inline(never)]
    fn set(&mut self, time: u64)
        ensures { self.new ≡ time }
    {
        *self = Present::new(time);
    }

    /// Becomes a time whose digits are the first of some bytes. They are its line's where no zero stands in front.
    #[inline(always)]
    pub(crate) fn set_front(&mut self, digits: Digits, bytes: &[u8])
        requires { IsTime digits.count digits.time bytes.now }
        ensures { self.new ≡ digits.time }
    {
        if bytes.len() < COPIED || (bytes[0] == b'0' && digits.count != 1) {
            self.set(digits.time);
            return;
        }
        self.time = digits.time;
        self.line.set_front(bytes, digits.count);
    }

    #[inline(always)]
    pub(crate) fn time(&self) -> u64
        ensures { result ≡ self.now }
    {
        self.time
    }

    /// The line that its row begins with.
    #[inline(always)]
    pub(crate) fn line(&self) -> &TimeLine
        ensures { result.now ≡ time_line (decimal self.now) }
    {
        &self.line
    }
}
