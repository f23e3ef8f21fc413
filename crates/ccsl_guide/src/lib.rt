//! Where a solver looks next: which values are forced, and which clock to decide. No contract says what it answers, so
//! nothing rests on that: ccsl_solve tests each hint before it uses it, and a wrong one costs time alone.
//!
//!     let mut guide = Guide::open(&problem, lines, &part)?;
//!     match guide.next(&problem, lines, &part)? {
//!         Hint::Broken(reason) => ..,        // the reason refutes the values
//!         Hint::Forced(lit, reason) => ..,   // the reason wants the literal
//!         Hint::Decide(lit) => ..,           // nothing is forced
//!     }
//!
//! `docs/SOLVER.md` says how it works.
#![tactic(auto)]

pub mod guide;
pub(crate) mod look;
pub(crate) mod order;
pub mod problem;
pub(crate) mod readers;
pub mod reason;
pub mod values;
pub(crate) mod watches;

pub use guide::{Guide, Hint};
pub use problem::Problem;
pub use reason::Reason;
pub use values::{Operands, valued};
