//! What is possible after some steps: whether a set of declared clocks may tick next, which constraint forbids it, and
//! which clocks may.
//!
//!     first_failing(alloc, &system, &states, &set)?   // the least constraint that forbids it, if there is one
//!     allowed(alloc, &system, &states)?           // the declared clocks that tick in some admissible set
//!
//! Constraints are counted from 0, in the order of the expansion. `first_failing` completes the set to a full step and
//! evaluates each constraint in it. `allowed` asks the solver once a declared clock at most, since a set that is found
//! answers for all its members. The only error is want of memory.
//!
//! Proved: both answers, of all admissible sets: a set may tick exactly where no constraint fails, and a clock is
//! allowed exactly where it is in some admissible set. How often the solver is asked is code, no clause.
//!
//! A session of ccsl_session answers `fire` and `allowed` by these.
#![tactic(auto)]

pub mod clocks;
pub mod fired;
pub mod laws;
mod ticking;

pub use clocks::allowed;
pub use fired::first_failing;
