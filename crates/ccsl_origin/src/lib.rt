//! Which lines of a text an item of the expanded system comes from.
//!
//!     let lines = origins(alloc, &library, &file, Wanted::Constraint(0))?;
//!     lines[0]                                    // Home::Specification, the place of `alternates(req, ack)`
//!     lines[1]                                    // Home::Library, that of `a precedes b` in the body of `alternates`
//!
//! An item of the system is named by how many of its kind come before it in the order of the expansion: clocks that the
//! system's lines define, clocks that a relation hides, constraints. In go the trees of the library and of the file;
//! out come the lines that lead to the item, the system's first and then, call by call, those of the relations' bodies.
//! A place counts bytes from 0 in its own text. There are none where there is no such item.
//!
//! Proved: it ends, since a relation stands before its calls, and a line that leads to the item stands in the trail
//! behind what led to it. Only tested: that the trail is that of the item. The only error is want of memory. ccsl_show
//! uses it.
#![tactic(auto)]

pub mod origin;
mod walk;

pub use origin::{Home, Origin, Wanted, origins};
