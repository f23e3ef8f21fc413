//! Why clocks cannot be bound.

ghost use Rattle.std.specs.Prelude.{◌≡◌};
ghost use Rattle.ccsl_bind.specs.declared.fault.BindFault.TheVariants.{Memory};

use std::alloc::{AllocError, AllocFailed};
use thiserror::Error;

/// The fault of the first clock that has one, or want of memory.
#[derive(Clone, Copy, Debug, Error)]
pub enum BindFault {
    /// A declared clock of which no declaration has the name.
    #[error("unbound clock {0}")]
    Unbound(u32),
    /// A clock whose name the outermost scope that has it gives to two codes.
    #[error("ambiguous clock {0}")]
    Ambiguous(u32),
    #[error("no memory")]
    Memory,
}

impl From<AllocError> for BindFault {
    ghost from_gives = { λ _ e. e ≡ Memory };

    fn from(_error: AllocError) -> BindFault {
        BindFault::Memory
    }
}

impl<T: Drop> From<AllocFailed<T>> for BindFault {
    ghost from_gives = { λ _ e. e ≡ Memory };

    fn from(_failed: AllocFailed<T>) -> BindFault {
        BindFault::Memory
    }
}
