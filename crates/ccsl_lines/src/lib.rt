//! The lines of standard input, one by one, as they come.
//!
//! A reader keeps one piece of at most `PIECE` bytes, and asks for more only where that has no line feed left, so
//! that a session answers a line as soon as it is there:
//!
//!     let mut reader = LineReader::open(alloc, MAX_FILE_BYTES)?;
//!     match reader.next(world)? {
//!         Next::Line => answer(reader.line()),
//!         Next::Ended => ..,
//!         ..
//!     }
//!
//! A line ends at a line feed, and the last one may end with the input. One of more than 65,536 bytes is `Long`, and
//! is not shown.
#![tactic(auto)]

pub mod laws;
pub(crate) mod part;
pub mod reader;

pub use reader::{LineReader, Next};
