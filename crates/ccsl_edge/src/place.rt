//! A slot of a world in memory.

ghost use Rattle.std.specs.Prelude.{◌≡◌, [], ◌++◌, length, take, drop, min, true, false, OnOk, OnErr};
ghost use Rattle.std.specs.String.{string_bytes};
ghost use Rattle.ccsl_edge.specs.World.{risen, Rose};
ghost use Rattle.ccsl_edge.specs.SlotTable.{unused};

use crate::world::Failed;
use std::alloc::{AllocError, Global};
use std::marker::Model;

/// What a slot has left to read, what was written to it and under which name, and how often it failed.
#[derive(Drop)]
pub(crate) struct Place {
    input: Vec<u8>,
    /// How many bytes of the input were taken.
    taken: usize,
    written: Vec<u8>,
    name: String,
    is_open: bool,
    faults: u64,
}

impl Model for Place {
    ghost use Rattle.std.specs.Prelude.{◌≤◌, length, drop};
    ghost use Rattle.std.specs.String.{string_bytes};
    ghost use Rattle.ccsl_edge.specs.World.{SlotState};

    ghost Value = { SlotState };

    ghost view = { λ p. record {
      left = drop p.taken p.input.items;
      written = p.written.items;
      name = string_bytes p.name;
      is_open = p.is_open;
      faults = p.faults;
    } };

    ghost invariant = { λ p. p.taken ≤ length p.input.items };
}

/// Moves at most so many of the bytes that are left to the front of a buffer.
pub(crate) fn move_front(left: &[u8], most: usize, buf: &mut [u8]) -> usize
    ensures count { result ≡ min most (min (length buf.old) (length left.now)) }
    ensures moved { take result buf.new ≡ take result left.now }
{
    let count = most.min(buf.len().min(left.len()));
    buf[..count].copy_from_slice(&left[..count]);
    count
}

impl Place {
    pub(crate) fn new(alloc: Global, is_open: bool) -> Place
        ensures { result ≡ unused is_open }
    {
        Place {
            input: Vec::new(alloc),
            taken: 0,
            written: Vec::new(alloc),
            name: String::new(alloc),
            is_open,
            faults: 0,
        }
    }

    /// Counts a call that failed.
    pub(crate) fn fail(&mut self) -> Failed
        ensures after { self.new ≡ record self.old { faults = risen self.old.faults } }
        ensures rose { Rose self.old.faults self.new.faults }
    {
        self.faults = self.faults.saturating_add(1);
        Failed
    }

    pub(crate) fn open_in(&mut self, input: Vec<u8>)
        ensures { self.new ≡ record self.old { left = input.items } }
    {
        self.input = input;
        self.taken = 0;
    }

    pub(crate) fn open_out(&mut self, name: String)
        ensures { self.new ≡ record
            self.old { written = []; name = string_bytes name; is_open = true } }
    {
        self.written.clear();
        self.name = name;
        self.is_open = true;
    }

    /// Moves at most so many bytes of what is left to the front of the buffer.
    pub(crate) fn take(&mut self, most: usize, buf: &mut [u8]) -> usize
        ensures count { result ≡ min most (min (length buf.old) (length self.old.left)) }
        ensures moved { take result buf.new ≡ take result self.old.left }
        ensures rest { self.new ≡ record self.old { left = drop result self.old.left } }
    {
        let count = move_front(&self.input[self.taken..], most, buf);
        self.taken += count;
        count
    }

    pub(crate) fn add(&mut self, bytes: &[u8]) -> Result<(), AllocError>
        ensures ok { OnOk result
            (self.new ≡ record self.old { written = self.old.written ++ bytes.now }) }
        ensures err { OnErr result (self.new ≡ self.old) }
    {
        self.written.extend_from_slice(bytes)
    }

    pub(crate) fn close(&mut self)
        ensures { self.new ≡ record self.old { is_open = false } }
    {
        self.is_open = false;
    }

    pub(crate) fn name(&self) -> &str
        ensures { result.now ≡ self.now.name }
    {
        self.name.as_str()
    }

    pub(crate) fn written(&self) -> &[u8]
        ensures { result.now ≡ self.now.written }
    {
        self.written.as_slice()
    }

    pub(crate) fn faults(&self) -> u64
        ensures { result ≡ self.now.faults }
    {
        self.faults
    }
}
