//! The events of a dump: the values of the variables that triggers read, what happens at each time, and what is
//! written.
//!
//!     let mut reader = Reader::open(alloc, keys, limits)?;
//!     let taken = reader.feed(piece, &mut out)?;  // the bytes taken: all, or up to the header's end
//!     let Some(header) = reader.take_header() else { .. };
//!     reader.begin(bind(alloc, &events, header, Gaps::Refuse)?);
//!     reader.finish(len, &mut out)?;              // behind all pieces: the row of the last time
//!
//! In go the events of a file and the bytes of a dump, in pieces of any size. Out come the rows of a trace, one for
//! each time at which something happens, in the dump's own unit; `header_text` makes what stands in front of them. A
//! call stops where a piece ends, where the header ends, and where the output has `FULL` bytes. A fault of the dump is
//! told as soon as its bytes decide it; one of a path has its place in the file of events.
//!
//! Proved: for every dump and every cutting exactly the defined rows, up to the first fault; what the events mean for a
//! header; the text of the header. Only tested: which variables are listed behind a path that is refused.
//! ccsl_events_top uses this crate, and by the laws of ccsl_event_rows what is written reads back.
#![tactic(auto)]

pub(crate) mod binder;
pub mod binding;
pub mod body;
pub(crate) mod codes;
pub mod laws;
pub(crate) mod links;
pub mod output;
pub(crate) mod present;
pub mod reader;
pub(crate) mod values;
pub(crate) mod word;

pub use binding::{Refused, bind};
pub use body::{Body, Gaps};
pub use output::{FULL, header_text};
pub use reader::Reader;
