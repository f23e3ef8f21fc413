//! Monitors: the first row of a trace at which one of some items of a system is violated.
//!
//! A monitor follows neighbouring items, and the states of the definitions that they lead to. Several of them, on
//! threads of their own, share the items of a system.
//!
//!     let mut monitor = Monitor::open(alloc, &system, 0, system.items(), binding.bound())?;
//!     monitor.check_block(&block);
//!     monitor.first()                        // step, time and item, where something was violated
//!
//! A row looks at the items of which a clock ticks, and rewrites the definitions that hear something. It takes no
//! memory.
#![tactic(auto)]

pub mod monitor;
mod readers;
mod relation;
mod states;
mod steps;
mod stretch;
mod touched;
pub mod violation;
pub mod watched;

pub use monitor::Monitor;
pub use violation::Violation;
