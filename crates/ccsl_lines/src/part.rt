//! The front of a line, as far as it was looked at.

ghost use Rattle.std.specs.Prelude.{◌≡◌, ◌↔◌, [], IfOk, IsTrue};
ghost use Rattle.ccsl_lines.specs.Lines.{Whole, Long};
ghost use Rattle.ccsl_lines.specs.Part.{added, stripped, bytes_of};

use ccsl_base::{MAX_LINE_BYTES, Memory};
use std::alloc::Global;
use std::marker::Model;

/// The bytes of a line so far. Where they are too many for a line none are kept. Contracts see it as a line.
#[derive(Drop)]
pub(crate) struct Part {
    buf: Vec<u8>,
    len: usize,
    is_long: bool,
}

impl Model for Part {
    ghost use Rattle.std.specs.Prelude.{◌≡◌, ◌≤◌, true, length, take};
    ghost use Rattle.ccsl_lines.specs.Lines.{Line};
    ghost use Rattle.ccsl_lines.specs.Part.{kept};

    ghost Value = { Line };

    ghost view = { λ p. kept p.is_long (take p.len p.buf.items) };

    ghost invariant = { λ p. (length p.buf.items ≡ 65536) × (p.len ≤ 65536)
        × (p.is_long ≡ true → p.len ≡ 0) };
}

impl Part {
    /// It alone takes memory.
    pub(crate) fn open(alloc: Global) -> Result<Part, Memory>
        ensures { IfOk result (λ p. p ≡ Whole []) }
    {
        let buf = vec![in alloc; 0u8; MAX_LINE_BYTES]?;
        Ok(Part {
            buf,
            len: 0,
            is_long: false,
        })
    }

    pub(crate) fn bytes(&self) -> &[u8]
        ensures { result.now ≡ bytes_of self.now }
    {
        &self.buf[..self.len]
    }

    pub(crate) fn is_long(&self) -> bool
        ensures { IsTrue result ↔ (self.now ≡ Long) }
    {
        self.is_long
    }

    pub(crate) fn is_empty(&self) -> bool
        ensures { IsTrue result ↔ (self.now ≡ Whole []) }
    {
        !self.is_long && self.len == 0
    }

    pub(crate) fn clear(&mut self)
        ensures { self.new ≡ Whole [] }
    {
        self.len = 0;
        self.is_long = false;
    }

    pub(crate) fn add(&mut self, bytes: &[u8])
        ensures { self.new ≡ added self.old bytes.now }
    {
        if self.is_long || bytes.len() > MAX_LINE_BYTES - self.len {
            self.len = 0;
            self.is_long = true;
            return;
        }
        let end = self.len + bytes.len();
        self.buf[self.len..end].copy_from_slice(bytes);
        self.len = end;
    }

    /// Drops one carriage return at the end.
    pub(crate) fn strip_carriage_return(&mut self)
        ensures { self.new ≡ stripped self.old }
    {
        if self.bytes().ends_with(b"\r") {
            self.len -= 1;
        }
    }
}
