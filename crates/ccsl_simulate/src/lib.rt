//! Simulation over a world: the one run of a system, a policy, a seed and a number of steps is written as a trace,
//! and where it ends early, a certificate that no step is left.
//!
//!     match simulate(alloc, world, &system, Policy::Min, 1, 100)? {
//!         Done::Full => ..,                  // all 100 steps
//!         Done::Deadlock(steps) => ..,
//!     }
//!
//! Both outputs are open in the world. Each step is written as it is made, so memory does not grow with their number.
//! An error is a failed write or want of memory; what was written then is a front of what is defined.
#![tactic(auto)]

pub mod answer;
pub mod laws;
mod simulator;
pub mod world;

pub use answer::Done;
pub use world::simulate;
