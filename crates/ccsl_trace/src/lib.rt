//! The rows of a trace, which are pulled from a world block by block.
//!
//!     let mut feed = Feed::open(alloc, keys, &system, &limits)?;
//!     loop {
//!         match feed.next(world)? {
//!             Next::Bound => ..,             // the header has ended
//!             Next::Rows => take(feed.block()),
//!             Next::Ended(counts) => break,
//!         }
//!     }
//!
//! It reads pieces of `PIECE` bytes, and no byte past the limit but one. An error is a failed read, a fault of the
//! trace with its place, or want of memory, which comes before the header's end or in its first pieces alone.
#![tactic(auto)]

pub mod fault;
pub mod feed;
pub mod next;

pub use fault::TraceFault;
pub use feed::Feed;
pub use next::Next;
