//! Reading a file of events: names, and what makes each of them happen.
//!
//!     events 1;
//!     m0_gnt = rise arb.gnt[0];
//!     beat   = rise tb.clock when s.valid == 1 and s.ready == 1;
//!
//!     read_events(alloc, keys, text)?             // two events, each with its trigger and its conditions
//!
//! In go all bytes of a file, and keys by which its names are hashed. Out come its events in their order, 1,024 at
//! most, or its first fault; a place counts bytes from 0 in the file. A path is kept as it was written, with its place:
//! whether a dump has such a variable is asked later, by `bind` of ccsl_events, which answers with a fault of this
//! crate too.
//!
//! Proved: the events are exactly those that the whole text says, or the fault is its first one, unless memory runs
//! out. The language is this project's own; the manual page of `ccsl-events` describes it. ccsl_events and
//! ccsl_events_top use this crate.
#![tactic(auto)]

pub mod event;
pub mod fault;
pub(crate) mod parser;
pub(crate) mod path;
pub(crate) mod statement;
pub(crate) mod token;
pub(crate) mod value;

pub use event::{Condition, Event, Located, Trigger};
pub use fault::EventFault;
pub use statement::read_events;
