//! The chain of alternations: a system from a number of clocks, which never ends.
//!
//!     chain(alloc, 24)?                           // clocks c0 to c23, each alternating with the next
//!     simulated_chains_are_full()                 // a law: each simulation of it has all its steps
//!
//! In goes a number of clocks, from 2 to 512; out comes the system of the text that declares them and has a line
//! `alternates(c0, c1);` and so on, made without a text. The only error is want of memory.
//!
//! Proved: it is the system to which its text is elaborated, and it is accepted. After every run of it some set is
//! admissible: the first clock that is level with the next one may tick alone, and where there is none, the last. So
//! the law holds, for every policy and seed.
//!
//! ccsl_top uses it for `trial`, whose answer is a number of ticks and never that a run ended early.
#![tactic(auto)]

mod build;
mod items;
pub mod laws;
mod naming;

pub use build::chain;
