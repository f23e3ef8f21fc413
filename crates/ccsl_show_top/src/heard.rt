//! A world that is listened to: what is reported, and how much is read.

ghost use Rattle.std.specs.Prelude.{◌≡◌};

use ccsl_edge::{Failed, Slot, World};
use std::alloc::Global;

/// What is told of bytes as they are read and written.
pub trait Listen {
    /// So many bytes of a slot were read.
    fn read(&mut self, slot: Slot, count: usize);

    /// These bytes were written to a slot.
    fn wrote(&mut self, slot: Slot, bytes: &[u8]);
}

/// The most bytes of a report that are kept.
const MOST: usize = 65_536;

/// A world, which does as it would by itself, with a front of what is reported and who hears what is read.
#[derive(Drop)]
pub struct Heard<W, L> {
    pub world: W,
    pub listener: L,
    said: Vec<u8>,
}

impl<W, L> Heard<W, L> {
    /// The world of which nothing was reported yet.
    pub fn new(alloc: Global, world: W, listener: L) -> Heard<W, L>
        ensures { result.world ≡ world }
    {
        Heard {
            world,
            listener,
            said: Vec::new(alloc),
        }
    }

    /// A front of what was reported.
    pub fn said(&self) -> &[u8] {
        self.said.as_slice()
    }

    // Where there is no memory, or no room, the rest is not kept.
    fn keep(&mut self, bytes: &[u8])
        ensures { self.new.world ≡ self.old.world }
    {
        if bytes.len() <= MOST && self.said.len() <= MOST {
            let _ = self.said.extend_from_slice(bytes);
        }
    }
}

impl<W: World, L: Listen> World for Heard<W, L> {
    ghost allows = { W.allows };

    ghost told = { W.told };

    ghost state = { λ h. W.state h.world };

    fn open_in(&mut self, slot: Slot, name: &str) -> Result<(), Failed> {
        self.world.open_in(slot, name)
    }

    fn open_out(&mut self, slot: Slot, name: &str) -> Result<(), Failed> {
        self.world.open_out(slot, name)
    }

    fn read(&mut self, slot: Slot, buf: &mut [u8]) -> Result<usize, Failed> {
        let count = self.world.read(slot, buf)?;
        self.listener.read(slot, count);
        Ok(count)
    }

    fn write(&mut self, slot: Slot, bytes: &[u8]) -> Result<usize, Failed> {
        let count = self.world.write(slot, bytes)?;
        if slot == Slot::Report {
            self.keep(&bytes[..count]);
        }
        self.listener.wrote(slot, &bytes[..count]);
        Ok(count)
    }

    fn close_out(&mut self, slot: Slot) -> Result<(), Failed> {
        self.world.close_out(slot)
    }
}
