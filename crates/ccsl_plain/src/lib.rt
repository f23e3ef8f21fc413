//! The meaning of a system computed as it is defined, over the whole history so far: slow, and plain.
//!
//!     plain_formula(alloc, &system, 0, &steps)?   // what item 0 asks of the step that comes behind these
//!     states.formula_of(alloc, 0)?                // the same formula, shape and all, by ccsl_state
//!
//! In go the full steps of a history, the first one first, and the number of an item: the definitions come first, then
//! the constraints. Out comes its formula, with nothing folded. Each expression is followed from its birth on with all
//! ticks of its operands, so the time goes by the square of the number of steps.
//!
//! Proved: the formula is the one that ccsl_kernel defines after these steps. The only error is want of memory.
//!
//! The program does not use it. It stands beside the definitions of ccsl_kernel, as a way to read them that runs, and
//! the tests of ccsl_plain_tests compare ccsl_state with it.
#![tactic(auto)]

mod advance;
mod course;
mod deaths;
mod opening;
mod operator;
mod plain;
mod ticks;
mod walk;

pub use plain::plain_formula;
