//! Why a text reads as no lines.

ghost use Rattle.std.specs.Prelude.{◌≡◌};
ghost use Rattle.ccsl_refute.specs.declared.fault.CertFault.TheVariants.{Memory};

use std::alloc::{AllocError, AllocFailed};
use thiserror::Error;

/// The first fault of a certificate's text, with its place, or want of memory.
#[derive(Clone, Copy, Debug, Error)]
pub enum CertFault {
    /// The token at this place fits no line; or the line that ends here lacks a token.
    #[error("no line of a certificate has this at byte {0}")]
    Syntax(usize),
    /// The literal at this place names no clock.
    #[error("the literal at byte {0} names no clock")]
    UnknownName(usize),
    #[error("no memory")]
    Memory,
}

impl From<AllocError> for CertFault {
    ghost from_gives = { λ _ e. e ≡ Memory };

    fn from(_error: AllocError) -> CertFault {
        CertFault::Memory
    }
}

impl<T: Drop> From<AllocFailed<T>> for CertFault {
    ghost from_gives = { λ _ e. e ≡ Memory };

    fn from(_failed: AllocFailed<T>) -> CertFault {
        CertFault::Memory
    }
}
