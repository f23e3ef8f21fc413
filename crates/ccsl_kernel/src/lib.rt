//! Systems, and what their expressions mean over the whole history.
//!
//! A `System` has names, declared clocks, groups of expressions that may call one another, definitions and
//! constraints, all by number. Each system is accepted: what it names is there and of its kind. The meaning stands in
//! `specs`: `Table` has one row an operator, `Lives` says when an expression is born and ends, `Items` what a
//! definition and a constraint ask of a step, `Runs` which steps are a run, `Verdict` where one is violated first.
//!
//!     system.definitions()                   // how many; definition i defines clock `declared + i`
//!     system.constraint(0).kind              // RelationKind::Precedes
//!
//! ccsl_state computes it step by step, and `tests/plain_meaning.py`, apart from this code, as it is written.
#![tactic(auto)]

mod accepted;
pub mod actual;
pub mod constraint;
pub mod expr;
pub mod group;
pub mod laws;
pub mod parts;
pub mod position;
pub mod system;

pub use actual::{Actual, Suffix};
pub use constraint::{Constraint, RelationKind};
pub use expr::{Expr, ExprOp, ExprTest, NumPrim, NumSign, NumTerm, Place, Value, WordPlace};
pub use group::{Body, Group, ParamKind};
pub use parts::Parts;
pub use position::Position;
pub use system::System;
