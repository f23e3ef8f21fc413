//! The files of an answer, read once more, and a trace, followed over its steps.
//!
//!     let text = read_text(alloc, world, spec)?;
//!     let found = understand(alloc, text.as_slice())?;   // tree, library and system, or what refuses the text
//!     let follow = followed(alloc, keys, world, &system, &clocks, trace, Until::Step(12))?;
//!     let columns = follow.window(&clocks, 8)?;          // at most eight steps before it, and step 12
//!
//! `Follow` keeps the last 256 steps before the one at which the trace is left, the counts of all clocks and, at the
//! end of a trace, since when one is ahead. Of the defined clocks those are followed that are asked for, and what their
//! definitions lead to. Steps count from 0, times are in the trace's own unit.
//!
//! Proved: the clocks of each step, as far as they are declared or followed; the counts; and that reading once more
//! only reads. Only tested: which of the kept steps are shown. A `Stop` comes where a call of the world fails, where a
//! trace is refused that was not before, and for want of memory. ccsl_show shows what is found.
#![tactic(auto)]

mod counting;
pub mod feeding;
pub mod follow;
pub mod heading;
pub mod reading;
pub mod search;
mod states;
pub mod steps;
pub mod stop;
pub mod text;
pub mod until;
mod window;

pub use follow::{Follow, followed};
pub use heading::{read_header, scale_of};
pub use search::{Search, searched};
pub use steps::Steps;
pub use stop::Stop;
pub use text::{TextFault, Understood, read_text, understand};
pub use until::Until;
