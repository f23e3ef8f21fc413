//! The rules of the language beyond its grammar: what a file must obey, how it is refused, and the system that an
//! accepted file stands for. Here are the definitions and their laws; `ccsl_elaborate` computes them.
//!
//!     least_is_least()                            // a law: no fault comes before the one that is answered
//!     counts_are_lengths()                        // totals counted by definition are those of the expansion
//!     Refusal::Unknown(60)                        // the only type: why a file is refused, and at which byte
//!
//! Each rule is a sentence over the whole file, as "a name is declared once in its space" or "calls go at most eight
//! levels deep". `Refusal` is the fault with the least place, and at one place the first in the order of its variants;
//! the totals of clocks, constraints and cells come behind all places, and carry a number where faults carry an offset.
//!
//! `Expansion` says what the calls of a faultless file unfold to, line by line. Nothing proves that these rules are
//! what CCSL wants: they are definitions, to be read, and `docs/DEFINITIONS.md` lists them.
#![tactic(auto)]

pub mod laws;
pub mod refusal;

pub use refusal::Refusal;
