//! Why a file of events is refused.

use ccsl_base::Memory;
use std::alloc::{AllocError, AllocFailed};
use thiserror::Error;

/// The first fault of a file of events, or want of memory. A place is counted in bytes, from 0.
#[derive(Clone, Copy, Debug, Error)]
pub enum EventFault {
    #[error("syntax at byte {at}")]
    Syntax { at: u64 },
    #[error("duplicate name at byte {at}")]
    Duplicate { at: u64 },
    /// A path that no variable has.
    #[error("unknown path at byte {at}")]
    Unknown { at: u64 },
    /// A path that means several things.
    #[error("ambiguous path at byte {at}")]
    Ambiguous { at: u64 },
    /// A rise or a fall of more bits than one, or of none.
    #[error("not one bit at byte {at}")]
    NotOneBit { at: u64 },
    /// A path behind `event` that means no event.
    #[error("no event at byte {at}")]
    NoEvent { at: u64 },
    /// A value with more bits than its path.
    #[error("value too wide at byte {at}")]
    TooWide { at: u64 },
    /// The file has too many bytes.
    #[error("more than 1048576 bytes")]
    TooLong,
    #[error("no memory")]
    Memory,
}

impl From<AllocError> for EventFault {
    ghost use Rattle.std.specs.Prelude.{◌≡◌};
    ghost use Rattle.ccsl_event_file.specs.declared.fault.EventFault.TheVariants.{Memory};

    ghost from_gives = { λ _ e. e ≡ Memory };

    fn from(_error: AllocError) -> EventFault {
        EventFault::Memory
    }
}

impl<T: Drop> From<AllocFailed<T>> for EventFault {
    ghost use Rattle.std.specs.Prelude.{◌≡◌};
    ghost use Rattle.ccsl_event_file.specs.declared.fault.EventFault.TheVariants.{Memory};

    ghost from_gives = { λ _ e. e ≡ Memory };

    fn from(_failed: AllocFailed<T>) -> EventFault {
        EventFault::Memory
    }
}

impl From<Memory> for EventFault {
    ghost use Rattle.std.specs.Prelude.{◌≡◌};
    ghost use Rattle.ccsl_event_file.specs.declared.fault.EventFault.TheVariants as faults;

    ghost from_gives = { λ _ e. e ≡ faults.Memory };

    fn from(_error: Memory) -> EventFault {
        EventFault::Memory
    }
}
