//! The verdict on a trace, by one thread or many.
//!
//!     match judge(rt, alloc, keys, world, &system, workers, &NoGate, &limits)? {
//!         Verdict::Run(steps) => ..,
//!         Verdict::Violated(violation) => ..,   // its step, time and item
//!     }
//!
//! The trace is open in the world. All of it is read, also behind a violation: a fault of the trace comes first
//! wherever it stands. Times are in the trace's own unit, and steps are counted from 0. The number of workers changes
//! no answer.
#![tactic(auto)]

pub mod judging;
pub mod laws;
mod share;
mod shares;
pub mod verdict;
mod weights;

pub use judging::{JudgeFault, judge};
pub use verdict::Verdict;
