//! A design is tried step by step: lines of standard input are answered on the report, over a run whose steps can be
//! taken back.
//!
//!     session(alloc, &mut world, &system, Policy::Min, seed, limit)?  // how it ended: Quit, EndOfInput or TooLong
//!
//!     fire req ack      step      allowed      back 2      trace      quit
//!
//! A line is answered by one call of `write_all`, before more is read. A session ends at `quit`, at the end of the
//! input, and where that has more than `limit` bytes; its run has at most 100,000 steps. A step that is left to the
//! policy takes the words of its own number, also behind steps that were taken back. `trace` answers with the run so
//! far as a value change dump and a line `end`.
//!
//! Proved: where the world tells input and output, the report grows by exactly the answers that a stack of declared
//! sets defines, and what such a stack completes to is a run. An error is a failed read or write, or want of memory;
//! what was reported then is a front of the transcript. ccsl_top calls it.
#![tactic(auto)]

pub mod answer;
mod answers;
mod asked;
pub mod laws;
mod stack;
mod text;
mod token;
mod trace;
pub mod world;

pub use answer::Ended;
pub use world::session;
