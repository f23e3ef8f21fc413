//! From the text of a specification to its system, or to the line that refuses it.
//!
//!     match read(alloc, text)? {
//!         Specification::Accepted(system) => ..,
//!         Specification::Refused(line) => ..,   // "spec: unknown name at byte 37\n"
//!     }
//!
//! It lexes, parses and elaborates behind the library, in this order, and the first that refuses is answered. In goes a
//! whole text, of at most 1,048,576 bytes. The only error is want of memory.
//!
//! Proved: the system or the line is the one that lexer, grammar, rules and library define. Laws: each text is one
//! system or is refused with one line, and not both, and a system is accepted. `tests/random_texts` tries the built
//! program beside a plain model.
//!
//! Every command of ccsl_top that has a specification reads it so.
#![tactic(auto)]

pub mod laws;
pub mod specification;

pub use specification::{Specification, read};
