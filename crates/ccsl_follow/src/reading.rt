//! Files that are read once more. Nothing is written, and no file but the one of the slot is read.

ghost use Rattle.std.specs.Prelude.{◌<◌, ◌≤◌, length, IfOk, OnOk};
ghost use Rattle.ccsl_edge.specs.Slots.{IsInputFile};
ghost use Rattle.ccsl_edge.specs.Counts.{SameCounts};
ghost use Rattle.ccsl_follow.specs.OnlyReads.{OnlyReads};

use crate::stop::Stop;
use ccsl_edge::{ReadFault, Slot, World, read_all};
use std::alloc::Global;

/// Opens a file.
pub fn open_file<W: World>(world: &mut W, slot: Slot, name: &str) -> Result<(), Stop>
    requires input { IsInputFile slot }
    requires allowed { W.allows slot name.now }
    ensures reads { OnlyReads (W.state world.old) (W.state world.new) }
    ensures calm { OnOk result (SameCounts (W.state world.old) (W.state world.new)) }
{
    match world.open_in(slot, name) {
        Ok(()) => Ok(()),
        Err(_failed) => Err(Stop::Fault),
    }
}

/// Reads on in a file, and answers how many bytes came; 0 only at its end.
pub fn read_on<W: World>(world: &mut W, slot: Slot, buffer: &mut [u8]) -> Result<usize, Stop>
    requires input { IsInputFile slot }
    requires room { 0 < length buffer.old }
    ensures within { IfOk result (λ count. count ≤ length buffer.new) }
    ensures reads { OnlyReads (W.state world.old) (W.state world.new) }
    ensures calm { OnOk result (SameCounts (W.state world.old) (W.state world.new)) }
{
    match world.read(slot, buffer) {
        Ok(count) => Ok(count),
        Err(_failed) => Err(Stop::Fault),
    }
}

/// Reads what is left of a file. None where that is more than so many bytes.
pub fn read_rest<W: World>(
    alloc: Global,
    world: &mut W,
    slot: Slot,
    most: u64,
) -> Result<Option<Vec<u8>>, Stop>
    requires input { IsInputFile slot }
    ensures reads { OnlyReads (W.state world.old) (W.state world.new) }
    ensures calm { OnOk result (SameCounts (W.state world.old) (W.state world.new)) }
{
    match read_all(alloc, world, slot, most) {
        Ok(text) => Ok(Some(text)),
        Err(ReadFault::TooLong) => Ok(None),
        Err(ReadFault::Memory) => Err(Stop::Memory),
        Err(ReadFault::Fault) => Err(Stop::Fault),
    }
}

/// Reads a file whole. None where it has more than so many bytes.
pub fn read_file<W: World>(
    alloc: Global,
    world: &mut W,
    slot: Slot,
    name: &str,
    most: u64,
) -> Result<Option<Vec<u8>>, Stop>
    requires input { IsInputFile slot }
    requires allowed { W.allows slot name.now }
    ensures reads { OnlyReads (W.state world.old) (W.state world.new) }
    ensures calm { OnOk result (SameCounts (W.state world.old) (W.state world.new)) }
{
    open_file(world, slot, name)?;
    read_rest(alloc, world, slot, most)
}
