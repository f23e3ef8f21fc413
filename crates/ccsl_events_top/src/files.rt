//! Reading and writing through a world.

ghost use Rattle.ccsl_edge.specs.declared.slot.Slot.TheVariants.{Spec};
ghost use Rattle.ccsl_events_top.specs.Stages.{ReadsFile};

use crate::stop::Stop;
use ccsl_base::MAX_SPEC_BYTES;
use ccsl_edge::{ReadFault, Slot, World, read_all};
use ccsl_event_file::EventFault;
use std::alloc::Global;

/// The whole file of events.
pub(crate) fn read_event_file<W: World>(
    alloc: Global,
    world: &mut W,
    name: &str,
) -> Result<Vec<u8>, Stop>
    requires allowed { W.allows Spec name.now }
    ensures { ReadsFile W.told name.now result (W.state world.old) (W.state world.new) }
{
    world.open_in(Slot::Spec, name)?;
    match read_all(alloc, world, Slot::Spec, MAX_SPEC_BYTES) {
        Ok(text) => Ok(text),
        Err(ReadFault::TooLong) => Err(Stop::Events(EventFault::TooLong, Vec::new(alloc))),
        Err(ReadFault::Fault) => Err(Stop::Fault),
        Err(ReadFault::Memory) => Err(Stop::Memory),
    }
}
