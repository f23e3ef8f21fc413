//! Why there is no trace of events, or not the whole of it.

ghost use Rattle.std.specs.Prelude.{◌≡◌};
ghost use Rattle.ccsl_events_top.specs.declared.stop.Stop.TheVariants as stops;
ghost use Rattle.ccsl_events_top.specs.Stopping.{stop_of};

use crate::words::Usage;
use ccsl_base::Memory;
use ccsl_edge::{Failed, ReadFault};
use ccsl_event_file::EventFault;
use ccsl_vcd::VcdFault;
use std::alloc::{AllocError, AllocFailed};

/// Why there is no trace of events, or not the whole of it.
#[derive(Drop)]
pub enum Stop {
    /// The words are at fault.
    Words(Usage),
    /// The file of events is. With the variables that a path of it may mean.
    Events(EventFault, Vec<u8>),
    /// The dump is.
    Trace(VcdFault),
    /// A call of the world failed.
    Fault,
    /// No memory was to be had.
    Memory,
}

impl From<Memory> for Stop {
    ghost from_gives = { λ _ stop. stop ≡ stops.Memory };

    fn from(_memory: Memory) -> Stop {
        Stop::Memory
    }
}

impl From<AllocError> for Stop {
    ghost from_gives = { λ _ stop. stop ≡ stops.Memory };

    fn from(_error: AllocError) -> Stop {
        Stop::Memory
    }
}

impl<T: Drop> From<AllocFailed<T>> for Stop {
    ghost from_gives = { λ _ stop. stop ≡ stops.Memory };

    fn from(_failed: AllocFailed<T>) -> Stop {
        Stop::Memory
    }
}

impl From<Failed> for Stop {
    ghost from_gives = { λ _ stop. stop ≡ stops.Fault };

    fn from(_failed: Failed) -> Stop {
        Stop::Fault
    }
}

impl From<VcdFault> for Stop {
    ghost from_gives = { λ fault stop. stop ≡ stop_of fault };

    fn from(fault: VcdFault) -> Stop {
        match fault {
            VcdFault::Memory => Stop::Memory,
            fault => Stop::Trace(fault),
        }
    }
}
