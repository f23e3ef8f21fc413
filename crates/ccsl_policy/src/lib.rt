//! The policies: the words of a seed, and the best set of clocks by them.
//!
//!     let mut draw = Draw::new(seed);
//!     let words = draw.next(alloc, scope.declared)?;
//!     choose(alloc, formulas, &scope, Policy::Seeded, words.as_slice())?
//!
//! The clocks are asked one after the other, in the order of their words: `min` prefers that a clock does not tick,
//! `max` that it does, `seeded` what the lowest bit of its word says. Words come from PCG XSH RR 64/32, 32 bits for
//! each declared clock and step, and depend on the seed alone.
//!
//! In go the formulas of all items; out comes a set with a declared member that satisfies them, `Choice::Step`, or the
//! lines of a certificate that there is none, `Choice::Deadlock`. The only error is want of memory.
//!
//! Proved: the set is the one best by policy and words. So a step of `min` has no proper subset that is one, and a step
//! of `max` no proper superset. ccsl_simulate and ccsl_session choose their steps by it.
#![tactic(auto)]

pub mod choice;
pub mod draw;
pub mod laws;
pub mod policies;

pub use choice::{Choice, choose};
pub use draw::Draw;
pub use policies::Policy;
