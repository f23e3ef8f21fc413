//! A solver for the formulas of a step: a set of clocks that satisfies them, the best one by a list of wishes, or the
//! lines of a certificate that there is none. It learns a clause at each conflict.
//!
//!     match solve(alloc, formulas, &scope, &Partial::empty())? {
//!         Answer::Step(set) => ..,           // not empty, and true of all formulas
//!         Answer::Refuted(lines) => ..,      // each follows from the formulas and those before it
//!     }
//!
//! Where to look next says ccsl_guide, of whose answers no contract speaks: what it proposes is tested before it
//! counts. `docs/SOLVER.md` says how it works.
#![tactic(auto)]

pub mod conflict;
pub mod explain;
pub mod plan;
pub mod reason;
pub mod search;
pub mod solver;

pub use solver::{Answer, solve, solve_by};
