//! The written trace: the steps of a system as a value change dump, and the law that it reads back.
//!
//!     let mut text = header(alloc, &system)?;
//!     step(0, &ticks, &system, &mut text)?;       // "#0\n1!\n"
//!
//! The unit is 1 ns, and step k stands at time k, from 0. Each clock that the specification itself declares or defines
//! is an `event` in the scope `ccsl`; hidden clocks are not written. Where there is room for all of them a step takes
//! no memory. The form is that of IEEE 1364-2005, clause 18.2.
//!
//! Proved: each text is the defined one. By `read_back` it reads without a fault as rows of the written clocks of each
//! step, and by `texts_fit` the text of 10,000,000 steps is no longer than a trace may be. Tested: that viewers take
//! it. ccsl_simulate writes with it, and ccsl_session answers `trace`.
#![tactic(auto)]

mod code;
mod digits;
pub mod laws;
pub mod writer;

pub use laws::{read_back, texts_fit};
pub use writer::{header, step};
