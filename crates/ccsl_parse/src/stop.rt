//! Where a reader stopped.

ghost use Rattle.std.specs.Prelude.{◌≡◌};
ghost use Rattle.ccsl_parse.specs.declared.stop.Stop.TheVariants.{Memory};

use ccsl_lex::Token;
use std::alloc::{AllocError, AllocFailed};

/// Why a reader stopped. A fault has the tokens from it on.
#[derive(Drop)]
pub enum Stop<'a> {
    Memory,
    Syntax(&'a [Token]),
    TooDeep(&'a [Token]),
}

impl<'a> From<AllocError> for Stop<'a> {
    ghost from_gives = { λ _ e. e ≡ Memory };

    fn from(_error: AllocError) -> Stop<'a> {
        Stop::Memory
    }
}

impl<'a, T: Drop> From<AllocFailed<T>> for Stop<'a> {
    ghost from_gives = { λ _ e. e ≡ Memory };

    fn from(_failed: AllocFailed<T>) -> Stop<'a> {
        Stop::Memory
    }
}
