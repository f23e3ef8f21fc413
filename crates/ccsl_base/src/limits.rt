//! The limits on what the program takes. Every other crate cites them from here.

/// The most named clocks of a system.
pub const MAX_CLOCKS: u32 = 1024;

/// The most constraints of a system.
pub const MAX_CONSTRAINTS: u32 = 4096;

/// The most cells of a system's state.
pub const MAX_CELLS: u32 = 32_768;

/// The most levels of an expression's nesting.
pub const MAX_LEVELS: u32 = 128;

/// The most levels of groups and relations, each called by the one above.
pub const MAX_CALL_LEVELS: u32 = 8;

/// The most parameters of a relation, an expression or a group.
pub const MAX_PARAMS: u32 = 8;

/// The most letters of a word, its prefix and its period together.
pub const MAX_LETTERS: usize = 4096;

/// The greatest number of ticks that a clock may be delayed for.
pub const MAX_DELAY: u32 = 4096;

/// The most bytes of a name.
pub const MAX_NAME_BYTES: usize = 64;

/// The greatest number in a specification.
pub const MAX_NUMBER: u32 = 4_294_967_295;

/// The most bytes of a specification.
pub const MAX_SPEC_BYTES: u64 = 1_048_576;

/// The most bytes of a trace or of a certificate: 2^36.
pub const MAX_FILE_BYTES: u64 = 68_719_476_736;

/// The most variables of a trace.
pub const MAX_VARS: u32 = 1_048_576;

/// The most scopes of a trace that are open at a time.
pub const MAX_SCOPES: u32 = 256;

/// The most bytes of a token of a trace.
pub const MAX_TOKEN_BYTES: usize = 65_536;

/// The most bytes of an identifier code of a trace.
pub const MAX_CODE_BYTES: usize = 32;

/// The rows of a block.
pub const BLOCK_ROWS: usize = 4096;

/// The most workers that judge a trace.
pub const MAX_WORKERS: u32 = 64;

/// The most steps of a simulation.
pub const MAX_STEPS: u64 = 10_000_000;

/// The most steps of a trial.
pub const MAX_TRIAL_STEPS: u64 = 100_000;

/// The fewest clocks of a trial.
pub const MIN_TRIAL_CLOCKS: u64 = 2;

/// The most clocks of a trial.
pub const MAX_TRIAL_CLOCKS: u64 = 512;

/// The most steps of a session.
pub const MAX_SESSION_STEPS: u64 = 100_000;

/// The most bytes of a line of a session, its line feed not counted, a carriage return before it counted.
pub const MAX_LINE_BYTES: usize = 65_536;

/// The most bytes of a file's name in a word of the command line.
pub const MAX_FILE_NAME: usize = 4096;

/// The most digits of a number in a word of the command line.
pub const MAX_DIGITS: usize = 20;

/// The most bytes of an input that are read at once.
pub const PIECE: usize = 65_536;
