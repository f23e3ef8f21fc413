//! The fault for which a file is refused: of all faults of its uses and declarations the one with the least place, and
//! at one place the first in the order of causes.
//!
//!     first_fault(alloc, &file, &library)?        // Some(Fault { cause: Cause::Unknown, at: 37 })
//!     fault.refusal()                             // Refusal::Unknown(37)
//!
//! In go the trees of a file and of the library; a place counts bytes from 0 in the file's text. It goes once through
//! the text and once through each name space, and makes nothing of what the file stands for. The library is taken as it
//! is: what may be wrong in it is not answered.
//!
//! Proved: the answer is exactly the fault that ccsl_rules defines, or `None` exactly where there is none. The only
//! error is want of memory. Not proved: how long it takes.
//!
//! ccsl_elaborate asks this first, and counts clocks, constraints and cells only where there is no fault.
#![tactic(auto)]

mod arguments;
mod bodies;
mod calls;
mod cause;
mod declarations;
mod definitions;
mod expressions;
mod fault;
mod levels;
mod lines;
mod scene;
mod uses;

pub use cause::Cause;
pub use definitions::first_fault;
pub use fault::Fault;
