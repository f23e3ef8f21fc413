//! The bytes of an input that were read and not taken yet.

ghost use Rattle.std.specs.Prelude.{◌≡◌, ◌<◌, ◌≤◌, ◌↔◌, [], drop, length, IfOk, IsTrue, OnErr};
ghost use Rattle.ccsl_base.specs.declared.limits.TheConstants.{PIECE};
ghost use Rattle.ccsl_edge.specs.Slots.{IsInput};
ghost use Rattle.ccsl_edge.specs.Calls.{Fails, Takes, Refills};

use crate::slot::Slot;
use crate::world::{Failed, World};
use ccsl_base::{Memory, PIECE};
use std::alloc::Global;
use std::marker::Model;

/// A piece of an input slot, from whose front bytes are taken. Contracts see the bytes that are left.
pub struct Pending {
    buf: Vec<u8>,
    from: usize,
    to: usize,
}

// By hand and not derived: to the prover, an early return then drops one by a single call.
impl Drop for Pending {
    fn drop(self) {
        let Pending {
            buf: _buf,
            from: _,
            to: _,
        } = self;
    }
}

impl Model for Pending {
    ghost use Rattle.std.specs.Prelude.{ℕ, List, ◌≡◌, ◌≤◌, length, take, drop};
    ghost use Rattle.ccsl_base.specs.declared.limits.TheConstants.{PIECE};

    ghost Value = { List ℕ };

    ghost view = { λ p. drop p.from (take p.to p.buf.items) };

    ghost invariant = { λ p. (length p.buf.items ≡ PIECE) × (p.from ≤ p.to) × (p.to ≤ PIECE) };
}

// Reads at most so many bytes to the front of the buffer.
fn read_at_most<W: World>(
    world: &mut W,
    slot: Slot,
    buf: &mut [u8],
    most: usize,
) -> Result<usize, Failed>
    requires input { IsInput slot }
    requires some { 0 < most }
    requires room { most ≤ length buf.old }
    ensures few { IfOk result (λ count. count ≤ most) }
    ensures ok { IfOk result
        (λ count. Takes W.told slot count (W.state world.old) (W.state world.new) buf.new) }
    ensures err { OnErr result (Fails slot (W.state world.old) (W.state world.new)) }
{
    world.read(slot, &mut buf[..most])
}

impl Pending {
    /// No bytes. It alone takes memory, for `PIECE` bytes.
    pub fn open(alloc: Global) -> Result<Pending, Memory>
        ensures { IfOk result (λ p. p ≡ []) }
    {
        let buf = vec![in alloc; 0u8; PIECE]?;
        Ok(Pending {
            buf,
            from: 0,
            to: 0,
        })
    }

    /// Whether all were taken.
    pub fn is_empty(&self) -> bool
        ensures { IsTrue result ↔ (self.now ≡ []) }
    {
        self.bytes().is_empty()
    }

    /// Those that are left.
    pub fn bytes(&self) -> &[u8]
        ensures same { result.now ≡ self.now }
        ensures few { length self.now ≤ PIECE }
    {
        &self.buf[self.from..self.to]
    }

    /// The first so many were taken.
    pub fn take(&mut self, count: usize)
        requires { count ≤ length self.old }
        ensures { self.new ≡ drop count self.old }
    {
        self.from += count;
    }

    /// Reads the next piece in place of what it had, with at most one byte more than may be taken, and tells how many
    /// bytes were read. That byte is not kept.
    pub fn refill<W: World>(&mut self, world: &mut W, slot: Slot, left: u64) -> Result<u64, Failed>
        requires input { IsInput slot }
        ensures ok { IfOk result
            (λ count. Refills W.told slot left count (W.state world.old)
            (W.state world.new) self.new) }
        ensures err { OnErr result (Fails slot (W.state world.old) (W.state world.new)) }
    {
        self.from = 0;
        self.to = 0;
        let room = left.min(PIECE as u64 - 1) as usize + 1;
        let count = read_at_most(world, slot, self.buf.as_mut_slice(), room)? as u64;
        self.to = count.min(left) as usize;
        Ok(count)
    }
}
