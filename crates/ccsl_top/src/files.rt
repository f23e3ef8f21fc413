//! Reading the files that the words name.

ghost use Rattle.std.specs.Prelude.{◌≡◌, IfOk, IfErr, option_map};
ghost use Rattle.ccsl_edge.specs.Slots.{IsInputFile};
ghost use Rattle.ccsl_top.specs.Changes.{Reads};
ghost use Rattle.ccsl_top.specs.Reading.{only, IsFile, IsStop};

use ccsl_edge::{ReadFault, Slot, Stop, World, read_all};
use std::alloc::Global;

/// Reads the whole file of a name through a slot. It answers `None` where the file has more than `limit` bytes.
pub(crate) fn read_file<W: World>(
    alloc: Global,
    world: &mut W,
    slot: Slot,
    name: &str,
    limit: u64,
) -> Result<Option<Vec<u8>>, Stop>
    requires input { IsInputFile slot }
    requires allowed { W.allows slot name.now }
    ensures reads { IfOk result (λ _. Reads (only slot) (W.state world.old) (W.state world.new)) }
    ensures file { IfOk result (λ read.
        IsFile W.told (W.state world.old).files name.now limit
        (option_map (λ bytes. bytes.items) read)) }
    ensures stop { IfErr result (λ stop. IsStop stop slot (W.state world.old) (W.state world.new)) }
{
    match world.open_in(slot, name) {
        Ok(()) => {}
        Err(_failed) => return Err(Stop::Fault),
    }
    match read_all(alloc, world, slot, limit) {
        Ok(bytes) => Ok(Some(bytes)),
        Err(ReadFault::TooLong) => Ok(None),
        Err(ReadFault::Fault) => Err(Stop::Fault),
        Err(ReadFault::Memory) => Err(Stop::Memory),
    }
}
