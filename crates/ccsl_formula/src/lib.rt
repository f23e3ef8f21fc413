//! The formulas of a step: truth under a set of clocks, and the strong Kleene value under a partial assignment.
//!
//!     let f = and(alloc, Formula::Var(0), not(alloc, Formula::Var(1))?)?;
//!     f.eval(&step)                               // whether 0 ticks and 1 does not
//!     f.kleene(&Partial::empty())                 // Truth3::Unknown
//!
//! A variable is a clock's number, and is true where that clock ticks. The constructors fold constants alone, so that
//! the shape of a formula is that of its definition. A `Partial` knows of some clocks whether they tick; a `Scope` says
//! how many clocks a system declares, which come first, and how many it names.
//!
//! Proved: each value is the defined one, the constructors keep both, and a Kleene value that is known is the truth
//! value under every set that agrees with what is known. The only error is want of memory.
//!
//! The states of ccsl_state tell formulas, and the solver, certificates and explanations work on them.
#![tactic(auto)]

pub mod fold;
pub mod formula;
pub mod laws;
pub mod pairs;
pub mod partial;
pub mod scope;
pub mod truth3;

pub use fold::{and, iff, not, or};
pub use formula::Formula;
pub use pairs::Pairs;
pub use partial::Partial;
pub use scope::Scope;
pub use truth3::Truth3;
