//! The line that the row of a time begins with.

ghost use Rattle.std.specs.Prelude.{◌≡◌, ◌≤◌, ◌++◌, length, take, OnOk};
ghost use Rattle.ccsl_triggers.specs.Output.{time_line};

use ccsl_base::Memory;
use std::marker::Model;

/// Room for `#`, the twenty digits of the largest time and a line end, and more: a copy of so many bytes needs no call.
const ROOM: usize = 24;

/// How many bytes the digits of a time are copied with.
pub const COPIED: usize = ROOM - 1;

/// The line of a time. Contracts see its bytes.
#[derive(Drop)]
pub struct TimeLine {
    // behind the line stand other bytes
    bytes: [u8; ROOM],
    len: usize,
}

impl Model for TimeLine {
    ghost use Rattle.std.specs.Prelude.{◌≡◌, ◌≤◌, ℕ, List, length, take};

    ghost Value = { List ℕ };

    ghost view = { λ l. take l.len l.bytes };

    ghost invariant = { λ l. (length l.bytes ≡ 24) × (l.len ≤ 24) };
}

impl TimeLine {
    /// The line of a time with these digits.
    pub fn new(digits: &[u8]) -> TimeLine
        requires { length digits.now ≤ 20 }
        ensures { result ≡ time_line digits.now }
    {
        let mut bytes = [b'#'; ROOM];
        bytes[1..digits.len() + 1].copy_from_slice(digits);
        bytes[digits.len() + 1] = b'\n';
        TimeLine {
            bytes,
            len: digits.len() + 2,
        }
    }

    /// Becomes the line of a time whose digits are the first of some bytes, so many. Nothing is made anew for it.
    #[inline(always)]
    pub fn set_front(&mut self, bytes: &[u8], count: usize)
        requires few { count ≤ 20 }
        requires enough { COPIED ≤ length bytes.now }
        ensures { self.new ≡ time_line (take count bytes.now) }
    {
        self.bytes[0] = b'#';
        self.bytes[1..].copy_from_slice(&bytes[..COPIED]);
        self.bytes[count + 1] = b'\n';
        self.len = count + 2;
    }

    /// Appends the line.
    #[inline(always)]
    pub fn put(&self, out: &mut Vec<u8>) -> Result<(), Memory>
        ensures { OnOk result (out.new.items ≡ out.old.items ++ self.now) }
    {
        let end = out.len() + self.len;
        out.extend_from_slice(self.bytes.as_slice())?;
        out.truncate(end);
        Ok(())
    }
}
