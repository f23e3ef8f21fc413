//! Why no step is possible: which items block, lines of a certificate that cite these alone, and for each of them the
//! least step that would be possible without it.
//!
//!     match explain(alloc, formulas, &scope)? {
//!         Explained::Open(set) => ..,                             // a step is possible
//!         Explained::Blocked { core, lines, without } => ..,      // a least set of items: each of them is needed
//!     }
//!
//! The formula of item i stands at place i, and `core` has numbers of items in ascending order. Items are left out one
//! by one, from the last; which least set is found depends on that order alone. The only error is want of memory.
//!
//! Proved: there is a core exactly where no set satisfies all formulas; it blocks, none of its items can go, the lines
//! are valid and cite its items alone, and each set of `without` is the least that satisfies the others. Not proved:
//! how often the solver is asked. `explain` of ccsl_top reports these, and writes the lines.
#![tactic(auto)]

mod copied;
mod deletion;
pub mod explanation;
pub mod laws;
mod least;
mod masked;
mod refutation;
mod used;

pub use explanation::{Explained, explain};
