//! The small types that every layer shares: sets of clocks, rows of a trace, lists, texts, names and the limits.
//!
//! A clock is a number below `MAX_CLOCKS`; its name stands in a table, `Names`. A step is the set of the clocks that
//! tick in it, and a `Row` is such a set with the time at which it was recorded, in the trace's own unit:
//!
//!     let mut step = ClockSet::empty();
//!     step.insert(3);
//!     step.insert(70);
//!     for clock in step.members() { .. }     // 3, and then 70
//!
//! What a caller hands over by a number is within its limit by contract, so a call here has no error but `Memory`.
#![tactic(auto)]

pub mod clock_set;
pub mod command_word;
pub mod keys;
pub mod laws;
pub mod limits;
pub mod members;
pub mod memory;
pub mod name;
pub mod names;
pub mod numeral;
pub mod reserved;
pub mod rows;
pub mod seq;
pub mod text;

pub use clock_set::ClockSet;
pub use command_word::CommandWord;
pub use keys::HashKeys;
pub use limits::{
    BLOCK_ROWS, MAX_CALL_LEVELS, MAX_CELLS, MAX_CLOCKS, MAX_CODE_BYTES, MAX_CONSTRAINTS, MAX_DELAY,
    MAX_DIGITS, MAX_FILE_BYTES, MAX_FILE_NAME, MAX_LETTERS, MAX_LEVELS, MAX_LINE_BYTES,
    MAX_NAME_BYTES, MAX_NUMBER, MAX_PARAMS, MAX_SCOPES, MAX_SESSION_STEPS, MAX_SPEC_BYTES,
    MAX_STEPS, MAX_TOKEN_BYTES, MAX_TRIAL_CLOCKS, MAX_TRIAL_STEPS, MAX_VARS, MAX_WORKERS,
    MIN_TRIAL_CLOCKS, PIECE,
};
pub use members::Members;
pub use memory::Memory;
pub use name::{is_digit, is_inner, is_letter, is_name, is_quotable, is_reserved, is_word};
pub use names::Names;
pub use numeral::decimal;
pub use reserved::Reserved;
pub use rows::{Block, Row, blank_rows};
pub use seq::Seq;
pub use text::{Text, is_text};
