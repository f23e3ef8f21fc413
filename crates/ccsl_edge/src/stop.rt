//! Why what needs the world and memory has stopped.

ghost use Rattle.std.specs.Prelude.{◌≡◌};
ghost use Rattle.ccsl_edge.specs.declared.stop.Stop.TheVariants as stops;

use crate::world::Failed;
use ccsl_base::Memory;
use std::alloc::{AllocError, AllocFailed};

/// Why there is no answer.
#[derive(Clone, Copy, PartialEq, Eq)]
pub enum Stop {
    /// A call of the world failed: the count of its slot has risen, or stands at its last value.
    Fault,
    /// No memory was to be had.
    Memory,
}

impl From<Failed> for Stop {
    ghost from_gives = { λ _ stop. stop ≡ stops.Fault };

    fn from(_failed: Failed) -> Stop {
        Stop::Fault
    }
}

impl From<Memory> for Stop {
    ghost from_gives = { λ _ stop. stop ≡ stops.Memory };

    fn from(_memory: Memory) -> Stop {
        Stop::Memory
    }
}

impl From<AllocError> for Stop {
    ghost from_gives = { λ _ stop. stop ≡ stops.Memory };

    fn from(_error: AllocError) -> Stop {
        Stop::Memory
    }
}

impl<T: Drop> From<AllocFailed<T>> for Stop {
    ghost from_gives = { λ _ stop. stop ≡ stops.Memory };

    fn from(_failed: AllocFailed<T>) -> Stop {
        Stop::Memory
    }
}
