//! What a command runs on.

use ccsl_base::HashKeys;
use std::alloc::Global;

/// Threads, memory, the keys by which a trace's codes are hashed, and the gate that each part of judging enters.
#[derive(Drop)]
pub(crate) struct Machine<'a, R, G> {
    pub(crate) rt: &'a R,
    pub(crate) alloc: Global,
    pub(crate) keys: HashKeys,
    pub(crate) gate: &'a G,
}
