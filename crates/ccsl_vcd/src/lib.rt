//! What a value change dump says, as definitions over the whole file, and their laws. Its only code is `is_code`.
//!
//!     is_code(b"!a")                              // whether these bytes can be a variable's code: visible, 32 at most
//!     VcdFault::TimeBack { at: 212, present: 35, time: 30 }    // "time back at byte 212, from 35 to 30"
//!
//! `Header` and `Body` say what each token does at its place, `Binding` which variable a clock's name means, `Rows` at
//! which times some clock ticks, and `Reading` puts them together: from all bytes of a file to its rows, or to its
//! first fault. `Grammar` and `Commands` are the same files spelled out; the laws say that what is read without a fault
//! is what they spell. Places count bytes from 0, times are in the trace's own unit.
//!
//! The source is IEEE 1364-2005, clause 18.2, with what simulators write beside it (`docs/GUIDE.md`). That the
//! definitions say what the standard means is not proved; 44 small files are worked through when the crate is checked.
//!
//! ccsl_vcd_read computes a reading, ccsl_bind its binding; ccsl_scopes and ccsl_events share `VcdFault` and `Limits`.
#![tactic(auto)]

pub mod code;
pub mod fault;
pub mod laws;
pub mod limits;

pub use code::is_code;
pub use fault::VcdFault;
pub use limits::{LIMITS, Limits};
