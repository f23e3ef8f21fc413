//! Certificates that no set of clocks satisfies some formulas, and a checker that knows nothing of a solver.
//!
//! A line stands for a clause, and the last clause is empty:
//!
//!     n                                      // some declared clock ticks
//!     i 1 -write beyond                      // by item 1: write does not tick, or beyond does
//!     r from 1 2                             // what lines 1 and 2 leave, taken in this order
//!
//!     let lines = read(alloc, text, names)?; // or the place at which the text is none
//!     check(alloc, lines.as_slice(), formulas, &scope)?;
//!
//! `CheckFault` has the first line that does not follow, from 1.
#![tactic(auto)]

pub mod blanks;
pub mod checker;
pub mod clause;
pub mod fault;
pub mod laws;
pub mod line;
pub mod reader;
mod token;
pub mod writer;

pub use checker::{CheckFault, check};
pub use fault::CertFault;
pub use line::{Line, Lit};
pub use reader::read;
pub use writer::write;
