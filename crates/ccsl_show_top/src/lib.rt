//! An answer for a person: what `ccsl` reports, and what stands behind it.
//!
//!     let mut world = Heard::new(alloc, files, listener);
//!     let outcome = run(rt, alloc, keys, words, own, again, &mut world, &mut out, &NoGate);
//!     outcome.status                              // that of `ccsl`
//!     outcome.shown                               // Err where a file failed or memory was wanting behind the answer
//!
//! `run` calls that of ccsl_top on a world that keeps a front of the report, and then puts a page behind that. At
//! status 5 and 6 nothing follows. Beside it stand the choices of the program: `Asked` parts its own words from those
//! of `ccsl`, `Gauge` says what share of the bytes was read or of the steps made and how many seconds are left, and
//! `files` which files are written or read once more.
//!
//! Proved: `Headline` of ccsl_top holds up to the end of the answer, and behind it only the report goes on; the choices
//! named above. Not: what the page says. ccsl_show_program gives it the real files.
#![tactic(auto)]

pub mod files;
pub mod heard;
pub mod help;
pub mod own;
pub mod program;
pub mod progress;

pub use heard::{Heard, Listen};
pub use help::{SESSION, UNKNOWN, is_unknown, told};
pub use own::{Asked, Colour};
pub use program::{Outcome, run};
pub use progress::{Gauge, Share, begins_step};
