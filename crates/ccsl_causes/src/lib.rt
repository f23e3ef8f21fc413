//! Why an item fails in a step, in names and in the numbers of its counts, and what is pending behind a run.
//!
//!     let mut counts = Counts::new(alloc, system.scope().named)?;
//!     counts.count(&step);                        // all clocks that tick, once a step
//!     put_cause(&mut page, &system, constraint, &Step { ticks: &next, before: &counts })?;
//!     put_pending(alloc, &mut page, &system, &counts, &leads, scale)?;
//!
//! `put_cause` puts `ack is at its tick 2, and req has ticked once before`; `put_pending` puts a line for each
//! precedence whose left clock is ahead, as `  pending: valid is 1 ahead of ready since 4 ns`. A count is a number of
//! ticks since the trace's first step, and stays at the largest number of 64 bits. A lead's `since` is a time in the
//! trace's own unit; `scale` says in which one it is shown.
//!
//! Proved: the counts after a step and after a block of rows, and since when which clock is ahead. Not proved: which
//! words tell why; stored answers try them. The only error is want of memory. ccsl_follow counts with this crate, and
//! ccsl_show puts the words.
#![tactic(auto)]

pub mod cause;
pub mod counts;
pub mod leads;
pub mod names;

pub use cause::{Step, put_cause, put_constraint};
pub use counts::Counts;
pub use leads::{Lead, Leads, put_pending};
pub use names::{clock_name, put_clock};
