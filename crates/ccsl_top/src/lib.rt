//! The program as one call: from the words of its command line and a world of files to a report and a status.
//!
//!     let mut world = FileWorld::new(&rt, rt.alloc());
//!     let status = run(&rt, rt.alloc(), keys, words.as_slice(), &mut world, &NoGate);
//!
//! `Headline` says what holds behind it in every world: the report and the files are those that are defined for these
//! words and files, or, where a call of the world failed or memory was wanting, a front of them; which status comes
//! when; which slots may have changed. `docs/CONTRACTS.md` has it in words.
//!
//! The status is 0 to 6, or 8 where a simulation ended early. The keys hash the codes of a trace, and a gate sees the
//! parts of the judging begin; no answer depends on either. A command has a module of its own, with the same sentence
//! for its part.
//!
//! Laws beside it say that there is one outcome for all words, files and input, and one alone but for the lines of a
//! certificate; that `certify` accepts what `explain` and `simulate` write; and what its yes means. Not proved: that
//! memory suffices, and any time. The program `ccsl` calls it, and ccsl_show_top shows what stands behind its answer.
#![tactic(auto)]

mod certify;
mod check;
mod explain;
mod files;
mod judge;
pub mod laws;
mod machine;
mod periodic;
pub mod program;
pub mod reply;
mod report;
mod session;
mod simulate;
mod specification;
mod trial;

pub use program::run;
