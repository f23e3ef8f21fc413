//! Reading a value change dump, in pieces of any size.
//!
//!     let mut reader = Reader::open(alloc, keys, &system, &limits)?;
//!     let taken = reader.feed(piece, &mut block)?;   // rows go into the block, as they are completed
//!     let counts = reader.finish(&mut block)?;
//!
//! Rows are the same for every cutting into pieces; their times are in the dump's own unit, and ascend. A call stops
//! where the header ends and where the block is full, right behind the byte by which it is. A fault is told as soon as
//! the bytes decide it, and by every call from then on.
//!
//! Proved: exactly the rows that the bytes complete, by the definitions of ccsl_vcd, or the decided fault; behind the
//! header no fault is a want of memory. Not proved: how long it takes; `docs/READER.md` says how it is fast. ccsl_trace
//! feeds it from a file.
#![tactic(auto)]

mod amid;
mod body;
mod buffer;
mod codes;
mod command;
mod heading;
pub mod laws;
mod lexer;
mod marks;
mod number;
mod opening;
mod reader;
mod scan;
mod stage;
mod users;
mod word;

pub use ccsl_vcd::{Limits, VcdFault};
pub use reader::{Counts, Reader, Taken};
