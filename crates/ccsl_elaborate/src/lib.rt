//! From a file to the system that it stands for, or to its refusal.
//!
//!     match elaborate(alloc, &file, &library) {
//!         Ok(system) => ..,
//!         Err(Refusal::Unknown(at)) => ..,   // the offset of the name
//!         ..
//!     }
//!
//! First the fault of the text is looked for, then clocks, constraints and cells are counted without expanding
//! anything, and only a file that passes both is expanded. So a text that would unfold to a million lines is refused
//! at the cost of reading it.
#![tactic(auto)]

pub mod cells;
pub mod counts;
pub mod elaborator;

pub use elaborator::elaborate;
