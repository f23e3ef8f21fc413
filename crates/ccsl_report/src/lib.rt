//! Every line that the program reports: its text, and the calls that make it.
//!
//!     run_yes(alloc, 12)?                         // "run: yes, 12 steps\n"
//!     trace_refused(alloc, &fault, &system)?      // "trace: gap at byte 212\n"
//!     put_run(12, &mut out)                       // the same as the first, into room that was taken before
//!
//! Each text is defined in `specs/Texts.antt`, word for word, and each call makes exactly that; this is proved. Numbers
//! are decimal, offsets are counted in bytes from 0, steps and constraints from 0, lines of a certificate from 1, and
//! times are in the trace's own unit. The only error is want of memory.
//!
//! The three `put` calls, for the answers of `judge`, take no memory: `judge_room` says how many bytes they may need,
//! and the caller takes these before it reads the trace.
//!
//! ccsl_spec takes from here the lines that refuse a text, ccsl_top all others.
#![tactic(auto)]

pub mod answer;
pub mod explained;
mod fault;
mod item;
pub mod judged;
mod line;
pub mod periodic;
pub mod refusal;

pub use answer::{
    cert_no_line, cert_no_run, cert_valid, checked, deadlocked, run_no, run_yes, session_too_long,
    simulated, trial_done,
};
pub use explained::{explain_blocked, explain_member, explain_no_run, explain_open};
pub use judged::{judge_room, put_no_run, put_run, put_trace_fault};
pub use periodic::{periodic_fails, periodic_holds, periodic_long, periodic_word};
pub use refusal::{
    cert_refused, cert_too_long, lex_refused, parse_refused, refused, spec_too_long, trace_refused,
    usage,
};
