//! The world that a program reads and writes: named files, standard input and standard output, by slots.

ghost use Rattle.std.specs.Prelude.{ℕ, ◌<◌, ◌≤◌, length, take, IsTrue, IfOk, OnOk, OnErr};
ghost use Rattle.ccsl_edge.specs.Slots.{IsInput, IsInputFile, IsOutput, IsOutputFile};
ghost use Rattle.ccsl_edge.specs.Calls.{Fails, OpensIn, Takes, OpensOut, Adds, Closes};

use crate::slot::Slot;

/// A call of a world failed. The count of its slot has risen, or stands at its last value, and all else is as it
/// was.
#[derive(Clone, Copy, Debug, PartialEq, Eq)]
pub struct Failed;

/// Files by name, and the slots through which they are read and written. `Input` and `Report` are always open.
///
/// The member `told` says what a type of world tells of its content. How many faults a slot has counted and which
/// output slots are open is always told.
pub trait World {
    ghost use Rattle.std.specs.Prelude.{ℕ, List};
    ghost use Rattle.ccsl_edge.specs.declared.slot.Slot.{Slot};
    ghost use Rattle.ccsl_edge.specs.World.{State, Told};

    /// Whether a file of this name may be opened under this slot.
    ghost allows: { Slot → List ℕ → Type 0 };

    /// What this type of world tells of its state.
    ghost told: { Told };

    /// The files and the slots.
    ghost state: { Self → State };

    /// Opens the named file for reading.
    fn open_in(&mut self, slot: Slot, name: &str) -> Result<(), Failed>
        requires input { IsInputFile slot }
        requires allowed { allows slot name.now }
        ensures ok { OnOk result (OpensIn told slot name.now (state self.old) (state self.new)) }
        ensures err { OnErr result (Fails slot (state self.old) (state self.new)) };

    /// Opens the named file for writing, which empties what was written.
    fn open_out(&mut self, slot: Slot, name: &str) -> Result<(), Failed>
        requires output { IsOutputFile slot }
        requires allowed { allows slot name.now }
        ensures ok { OnOk result (OpensOut told slot name.now (state self.old) (state self.new)) }
        ensures err { OnErr result (Fails slot (state self.old) (state self.new)) };

    /// Puts the next bytes at the front of the buffer and answers how many; 0 only at the end of the input.
    fn read(&mut self, slot: Slot, buf: &mut [u8]) -> Result<usize, Failed>
        requires input { IsInput slot }
        requires room { 0 < length buf.old }
        ensures ok { IfOk result (λ count.
            Takes told slot count (state self.old) (state self.new) buf.new) }
        ensures err { OnErr result (Fails slot (state self.old) (state self.new)) };

    /// Adds at least one of the first of these bytes and answers how many. A slot under a file's name has to be open.
    fn write(&mut self, slot: Slot, bytes: &[u8]) -> Result<usize, Failed>
        requires output { IsOutput slot }
        requires opened { IsOutputFile slot → IsTrue ((state self.old).slot_of slot).is_open }
        requires some { 0 < length bytes.now }
        ensures within { IfOk result (λ count. (0 < count) × (count ≤ length bytes.now)) }
        ensures ok { IfOk result (λ count.
            Adds told slot (take count bytes.now) (state self.old) (state self.new)) }
        ensures err { OnErr result (Fails slot (state self.old) (state self.new)) };

    /// Closes the slot, so that the file of its name holds what was written.
    fn close_out(&mut self, slot: Slot) -> Result<(), Failed>
        requires output { IsOutputFile slot }
        requires opened { IsTrue ((state self.old).slot_of slot).is_open }
        ensures ok { OnOk result (Closes told slot (state self.old) (state self.new)) }
        ensures err { OnErr result (Fails slot (state self.old) (state self.new)) };
}
