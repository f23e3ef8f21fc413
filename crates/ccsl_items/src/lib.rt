//! The formulas of all items of a system after some steps, and what the sets that satisfy them are to its runs.
//!
//!     let mut formulas = Vec::new(alloc);
//!     put_formulas(alloc, &system, &states, &mut formulas)?;
//!
//! In go a system and states after some steps; out comes a formula for each item, the definitions first and then the
//! constraints, over the numbers of clocks. What the list held before is gone, and after an error it is some list.
//!
//! The sets of clocks that satisfy all of them are the full steps with which the run can go on; their declared parts
//! are the admissible sets. What a solver finds, a certificate refutes and a session allows is said in terms of these.
//!
//! Proved: the list is the one that ccsl_kernel defines, and, as laws, that after a run these sets are what the kernel
//! admits, and that where there is none the run ends. The only error is want of memory. ccsl_simulate, ccsl_session,
//! ccsl_possible, ccsl_certify and `explain` of ccsl_top ask for the list.
#![tactic(auto)]

pub mod formulas;
pub mod laws;

pub use formulas::put_formulas;
