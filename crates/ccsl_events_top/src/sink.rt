//! Where a trace of events goes.

ghost use Rattle.std.specs.Prelude.{◌≡◌, [], OnOk, OnErr};
ghost use Rattle.ccsl_edge.specs.Calls.{Adds, AddsFront};
ghost use Rattle.ccsl_events_top.specs.Streams.{slot_of};
ghost use Rattle.ccsl_events_top.specs.Writing.{MayWrite};

use ccsl_edge::{Failed, Slot, World, write_all};

/// Standard output, or a file.
#[derive(Clone, Copy)]
pub enum Sink {
    Standard,
    File,
}

/// Writes what stands in a block, and empties it.
pub(crate) fn write_block<W: World>(
    world: &mut W,
    sink: Sink,
    block: &mut Vec<u8>,
) -> Result<(), Failed>
    requires open { MayWrite sink (W.state world.old) }
    ensures ok { OnOk result
        (Adds W.told (slot_of sink) block.old.items (W.state world.old) (W.state world.new)) }
    ensures err { OnErr result
        (AddsFront W.told (slot_of sink) block.old.items (W.state world.old) (W.state world.new)) }
    ensures empty { OnOk result (block.new.items ≡ []) }
    ensures open { OnOk result (MayWrite sink (W.state world.new)) }
{
    match sink {
        Sink::Standard => write_all(world, Slot::Report, block.as_slice())?,
        Sink::File => write_all(world, Slot::TraceOut, block.as_slice())?,
    }
    block.clear();
    Ok(())
}
