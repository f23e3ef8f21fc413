//! Reading all that a slot has left, and writing a whole text.

ghost use Rattle.std.specs.Prelude.{IsTrue, OnOk, OnErr, IfOk, IfErr};
ghost use Rattle.ccsl_edge.specs.Slots.{IsInput, IsOutput, IsOutputFile};
ghost use Rattle.ccsl_edge.specs.Calls.{Adds, AddsFront, ReadsAll, ReadsUntil};

use crate::slot::Slot;
use crate::world::{Failed, World};
use ccsl_base::PIECE;
use std::alloc::{AllocError, Global};

/// Why a slot could not be read whole.
#[derive(Clone, Copy, Debug, PartialEq, Eq)]
pub enum ReadFault {
    /// A read failed: the count of the slot has risen, or stands at its last value.
    Fault,
    /// More bytes were left than allowed.
    TooLong,
    /// No memory was to be had.
    Memory,
}

impl From<Failed> for ReadFault {
    ghost use Rattle.std.specs.Prelude.{◌≡◌};
    ghost use Rattle.ccsl_edge.specs.declared.whole.ReadFault.TheVariants.{Fault};

    ghost from_gives = { λ _ fault. fault ≡ Fault };

    fn from(_failed: Failed) -> ReadFault {
        ReadFault::Fault
    }
}

impl From<AllocError> for ReadFault {
    ghost use Rattle.std.specs.Prelude.{◌≡◌};
    ghost use Rattle.ccsl_edge.specs.declared.whole.ReadFault.TheVariants.{Memory};

    ghost from_gives = { λ _ fault. fault ≡ Memory };

    fn from(_error: AllocError) -> ReadFault {
        ReadFault::Memory
    }
}

/// Reads all the bytes that an input slot has left. It asks the world for no byte behind the first one that is
/// past the limit. It takes memory for a buffer of at most 64 KiB, and for what it reads.
pub fn read_all<W: World>(
    alloc: Global,
    world: &mut W,
    slot: Slot,
    limit: u64,
) -> Result<Vec<u8>, ReadFault>
    requires input { IsInput slot }
    ensures ok { IfOk result
        (λ all. ReadsAll W.told slot limit all.items (W.state world.old) (W.state world.new)) }
    ensures err { IfErr result
        (λ fault. ReadsUntil fault W.told slot limit (W.state world.old) (W.state world.new)) }
{
    let mut buffer = vec![in alloc; 0u8; limit.min(PIECE as u64 - 1) as usize + 1]?;
    let buffer = buffer.as_mut_slice();
    let mut all = Vec::new(alloc);
    loop {
        let room = limit - all.len() as u64;
        let part = &mut buffer[..room.min(PIECE as u64 - 1) as usize + 1];
        let count = world.read(slot, part)?;
        if count == 0 {
            return Ok(all);
        }
        if count as u64 > room {
            return Err(ReadFault::TooLong);
        }
        all.extend_from_slice(&part[..count])?;
    }
}

/// Adds all the bytes to an output slot, which is open where it has a file's name. Where a call fails, a front of them
/// was added.
pub fn write_all<W: World>(world: &mut W, slot: Slot, bytes: &[u8]) -> Result<(), Failed>
    requires output { IsOutput slot }
    requires opened { IsOutputFile slot → IsTrue ((W.state world.old).slot_of slot).is_open }
    ensures ok { OnOk result (Adds W.told slot bytes.now (W.state world.old) (W.state world.new)) }
    ensures err { OnErr result
        (AddsFront W.told slot bytes.now (W.state world.old) (W.state world.new)) }
{
    let mut rest = bytes;
    while !rest.is_empty() {
        let count = world.write(slot, rest)?;
        rest = rest.split_at(count).1;
    }
    Ok(())
}
