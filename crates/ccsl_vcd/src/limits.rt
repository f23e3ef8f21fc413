//! How large a trace may be.

use ccsl_base::{MAX_FILE_BYTES, MAX_SCOPES, MAX_VARS};

/// The most bytes of a trace, declarations in its header, and scopes within one another.
#[derive(Clone, Copy)]
pub struct Limits {
    pub bytes: u64,
    pub vars: u32,
    pub scopes: u32,
}

/// The limits on every trace that a program reads.
pub const LIMITS: Limits = Limits {
    bytes: MAX_FILE_BYTES,
    vars: MAX_VARS,
    scopes: MAX_SCOPES,
};
