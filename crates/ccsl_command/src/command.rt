//! What a command line asks for.

use crate::{FileName, PolicyName, RelationName};
use ccsl_words::Word;

/// A command with its values, each within its range.
#[derive(Drop)]
pub enum Command {
    /// Reads a specification, and says whether it is accepted.
    Check {
        spec: FileName,
    },
    /// Writes the run that specification, policy, seed and number of steps give, and a certificate where it ends early.
    Simulate {
        spec: FileName,
        policy: PolicyName,
        seed: u64,
        steps: u64,
        trace: FileName,
        cert: FileName,
    },
    /// Says whether a trace is a run of a specification.
    Judge {
        spec: FileName,
        trace: FileName,
        workers: u32,
    },
    /// Checks a certificate that no step is left after a trace.
    Certify {
        spec: FileName,
        trace: FileName,
        cert: FileName,
    },
    /// Simulates a chain of alternating clocks in memory, and judges what was written.
    Trial {
        clocks: u32,
        steps: u64,
        seed: u64,
        workers: u32,
    },
    /// Compares two periodic filters of one clock for all lengths, or says which filter the one on the other is.
    Periodic {
        left: Word,
        right: Word,
        relation: RelationName,
    },
    /// Says which items block every step after a trace, with a certificate that names only these.
    Explain {
        spec: FileName,
        trace: FileName,
        cert: FileName,
    },
    /// Reads lines from standard input and answers each: steps are tried, taken back, asked for.
    Session {
        spec: FileName,
        policy: PolicyName,
        seed: u64,
    },
}
