//! Why a value change dump is refused.

use ccsl_base::Memory;
use std::alloc::{AllocError, AllocFailed};
use thiserror::Error;

/// The fault of a trace that is decided first, or want of memory. A place is counted in bytes, from 0.
#[derive(Clone, Copy, Debug, Error)]
pub enum VcdFault {
    /// A token of more than 65,536 bytes, at its first byte.
    #[error("token too long at byte {at}")]
    TokenTooLong { at: u64 },
    /// In the header: what is no command in a command's place, or a declaration that is none.
    #[error("bad header at byte {at}")]
    BadHeader { at: u64 },
    /// The declaration past the limit, at its `$var`.
    #[error("too many variables at byte {at}")]
    TooManyVars { at: u64 },
    /// Scopes nested past the limit, at the `$scope`.
    #[error("scopes too deep at byte {at}")]
    TooDeep { at: u64 },
    /// No digits behind `#`, or a time that does not fit 64 bits.
    #[error("bad time at byte {at}")]
    BadTime { at: u64 },
    /// What is no change of a value in a change's place.
    #[error("bad change at byte {at}")]
    BadChange { at: u64 },
    /// A code that nothing declares: at the scalar change, or at the code of another change.
    #[error("unknown code at byte {at}")]
    UnknownCode { at: u64 },
    /// A command that cannot stand there.
    #[error("unknown command at byte {at}")]
    UnknownCommand { at: u64 },
    /// `$dumpoff`: values are not recorded from there on.
    #[error("gap at byte {at}")]
    Gap { at: u64 },
    /// The file ends in the middle, at its length.
    #[error("truncated at byte {at}")]
    Truncated { at: u64 },
    /// The file has more bytes than the limit, at the limit.
    #[error("too long at byte {at}")]
    TooLong { at: u64 },
    /// A time that is less than the present one, both in the trace's own unit.
    #[error("time back at byte {at}, from {present} to {time}")]
    TimeBack { at: u64, present: u64, time: u64 },
    /// A declared clock of which no declaration has the name.
    #[error("unbound clock {clock}")]
    Unbound { clock: u32 },
    /// A clock whose name the outermost scope that has it gives to two codes.
    #[error("ambiguous clock {clock}")]
    Ambiguous { clock: u32 },
    #[error("no memory")]
    Memory,
}

impl From<AllocError> for VcdFault {
    ghost use Rattle.std.specs.Prelude.{◌≡◌};
    ghost use Rattle.ccsl_vcd.specs.declared.fault.VcdFault.TheVariants.{Memory};

    ghost from_gives = { λ _ e. e ≡ Memory };

    fn from(_error: AllocError) -> VcdFault {
        VcdFault::Memory
    }
}

impl<T: Drop> From<AllocFailed<T>> for VcdFault {
    ghost use Rattle.std.specs.Prelude.{◌≡◌};
    ghost use Rattle.ccsl_vcd.specs.declared.fault.VcdFault.TheVariants.{Memory};

    ghost from_gives = { λ _ e. e ≡ Memory };

    fn from(_failed: AllocFailed<T>) -> VcdFault {
        VcdFault::Memory
    }
}

impl From<Memory> for VcdFault {
    ghost use Rattle.std.specs.Prelude.{◌≡◌};
    ghost use Rattle.ccsl_vcd.specs.declared.fault.VcdFault.TheVariants as faults;

    ghost from_gives = { λ _ e. e ≡ faults.Memory };

    fn from(_error: Memory) -> VcdFault {
        VcdFault::Memory
    }
}
