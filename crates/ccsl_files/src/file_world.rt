//! The real world: files, standard input and standard output. This is the trusted edge: what a file holds is not
//! told, and no clause speaks of it.

ghost use Rattle.std.specs.Prelude.{◌≡◌, ⊤};
ghost use Rattle.ccsl_edge.specs.SlotTable.{slots_at_start, file_state};
ghost use Rattle.ccsl_files.specs.FileSystem.{tells_nothing};

use crate::channel::{Channel, End};
use crate::closing::Close;
use crate::opening::{open_sink, open_source};
use ccsl_edge::{Failed, Slot, World};
use std::alloc::Global;
use std::io::{Input, Print, Read};
use std::marker::Model;
use std::random::RandomSource;
use std::rt::Files;

/// Files of the system by name, standard input under `Input` and standard output under `Report`. Each slot has at
/// most one open file.
///
/// An output that is a file, or is to be one, goes to a new file in the same folder, which is put in place by one
/// renaming at `close_out`. After a fault, and where the world goes before that, the new file is removed. A pipe, a
/// device and what a process has open, as `/dev/stdout`, is written as it stands.
pub struct FileWorld<R: Files> {
    rt: R,
    alloc: Global,
    slots: [Channel<R::File>; 7],
}

impl<R: Files> Model for FileWorld<R> {
    ghost use Rattle.std.specs.Prelude.{List};
    ghost use Rattle.ccsl_edge.specs.World.{SlotState};

    ghost Value = { List SlotState };

    ghost view = { λ w. w.slots };
}

impl<R: Files + Drop> Drop for FileWorld<R> {
    fn drop(self) {
        let FileWorld {
            rt,
            alloc: _,
            mut slots,
        } = self;
        slots[Slot::TraceOut.index()].give_up(&rt);
        slots[Slot::CertOut.index()].give_up(&rt);
    }
}

impl<R: Files> FileWorld<R> {
    /// A world with no file open.
    pub fn new(rt: R, alloc: Global) -> FileWorld<R>
        ensures { result ≡ slots_at_start }
    {
        FileWorld {
            rt,
            alloc,
            slots: [
                Channel::new(false, End::Nothing),
                Channel::new(false, End::Nothing),
                Channel::new(false, End::Nothing),
                Channel::new(false, End::Nothing),
                Channel::new(true, End::StandardOutput),
                Channel::new(false, End::Nothing),
                Channel::new(false, End::Nothing),
            ],
        }
    }

    /// Whether a write failed since the reader of standard output had gone.
    pub fn has_lost_reader(&self) -> bool {
        self.slots.iter().any(|channel| channel.has_lost_reader())
    }
}

impl<R: Files<File: Close> + Input + Print + RandomSource> World for FileWorld<R> {
    ghost allows = { λ _ _. ⊤ };

    ghost told = { tells_nothing };

    ghost state = { file_state };

    fn open_in(&mut self, slot: Slot, name: &str) -> Result<(), Failed> {
        let opened = open_source(&self.rt, name);
        let channel = &mut self.slots[slot.index()];
        let Ok(opened) = opened else {
            return Err(channel.fail());
        };
        channel.open_in(opened);
        Ok(())
    }

    fn open_out(&mut self, slot: Slot, name: &str) -> Result<(), Failed> {
        let opened = open_sink(&self.rt, self.alloc, &self.slots, slot, name);
        let channel = &mut self.slots[slot.index()];
        let Ok(opened) = opened else {
            return Err(channel.fail());
        };
        channel.give_up(&self.rt);
        channel.open_out(opened);
        Ok(())
    }

    fn read(&mut self, slot: Slot, buf: &mut [u8]) -> Result<usize, Failed> {
        let channel = &mut self.slots[slot.index()];
        let answer = match slot {
            Slot::Input => self.rt.reader().read(buf),
            _ => channel.read(buf),
        };
        let Ok(count) = answer else {
            return Err(channel.fail());
        };
        Ok(count)
    }

    fn write(&mut self, slot: Slot, bytes: &[u8]) -> Result<usize, Failed> {
        let channel = &mut self.slots[slot.index()];
        // A device that takes nothing is at fault.
        let count = channel.write(&self.rt, bytes).unwrap_or(0);
        if count == 0 {
            channel.give_up(&self.rt);
            return Err(channel.fail());
        }
        Ok(count)
    }

    fn close_out(&mut self, slot: Slot) -> Result<(), Failed> {
        let channel = &mut self.slots[slot.index()];
        if channel.finish(&self.rt).is_err() {
            return Err(channel.fail());
        }
        channel.close();
        Ok(())
    }
}
