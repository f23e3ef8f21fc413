//! The program that makes a trace of events of a dump, as one call: its words, the files and the report.
//!
//!     let answer = run(alloc, keys, words, &mut world);
//!     answer.status                               // 0, or 2 to 6
//!     answer.line                                 // "events: 8 names, 502 times\n", or empty where it is reported
//!     answer.hint                                 // the variables that a refused path may mean
//!
//! The words are `events=FILE trace=FILE`, and `out=FILE` and `gaps=skip` if wanted. The trace goes to the file `out`,
//! and without that to standard output; the line goes to standard output where the trace does not, and else is left to
//! the caller for standard error. Status 2 comes for the words, 3 for the file of events, 4 for the dump, 5 where a
//! call of the world failed, and 6 for want of memory. The dump is read once, in pieces, so it may be a pipe.
//!
//! Proved, as `Headline`, over every world and for all words: the status, the line and the trace are the defined ones,
//! and of a dump at fault the trace up to the fault is written. Only tested: what the hint lists. ccsl_events_program
//! hands it the real files.
#![tactic(auto)]

pub(crate) mod answer;
pub(crate) mod files;
pub mod laws;
pub(crate) mod pass;
pub mod program;
pub mod sink;
pub mod stop;
pub mod words;

pub use answer::Answer;
pub use laws::{one_is_made, whole_dump_is_read};
pub use program::run;
pub use stop::Stop;
