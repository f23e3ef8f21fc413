//! Periodic filters for all lengths: where a relation between two filters of one clock fails, what a filter of a filter
//! is, and the canonical spelling of a word.
//!
//!     compare(&left, &right, Between::Precedes)   // the first tick at which it fails, or that it never does
//!     on(alloc, &left, &right)?                   // the word that filters as `left` and then `right` do
//!     canonical(alloc, &word)?                    // the shortest period, and then the shortest prefix
//!
//! Words are binary and infinite, as `01(10)`, with 4,096 letters of prefix and period at most; a tick is one of the
//! clock that is filtered, counted from 0. A relation is decided within the longer prefix and one common period, and
//! takes no memory. `on` answers `TooLong`, with the number of letters, where prefix and period of its word have more
//! than 4,096.
//!
//! Proved, over the infinite words and over every list of steps that obeys the definitions: each answer. Not proved:
//! how long it takes. `periodic` of ccsl_top answers by these calls, and `tests/random_words` tries it beside plain
//! loops.
#![tactic(auto)]

pub mod between;
mod divisor;
pub mod failure;
pub mod filtered;
pub mod laws;
mod letters;
pub mod shortest;
pub mod text;
mod turn;

pub use between::Between;
pub use failure::compare;
pub use filtered::{OnFault, on};
pub use shortest::canonical;
pub use text::{prefix_len, write};
