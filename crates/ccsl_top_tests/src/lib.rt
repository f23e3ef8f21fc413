//! Tests alone, of the program over worlds in memory: each call of a world fails in turn, and gates see which parts of
//! the work run. Nothing is claimed of this crate, and no other one uses it.
//!
//!     fn each_call_that_fails_is_told(rt)              // failing: status 5, behind a front of the report
//!     fn each_call_is_made_once_in_its_order(rt)       // failing_writes: the calls of a simulation
//!     fn two_workers_run_side_by_side(rt)              // gates: each part waits until the other one has entered
//!
//! `answered` builds a `MemoryWorld` of the texts of a specification, a trace, a certificate and standard input, has
//! `run` of ccsl_top answer a line of words, and looks at the status, the report or a file. Reads and writes take one
//! byte at a time, or many. The commands are `judge`, `simulate`, `certify`, `explain` and `session`.
//!
//! `gates` counts how often each part enters the gate under `judge` and `trial`: once for each block of rows. That
//! parts run side by side is no clause: it is seen here, and in ccsl_base_tests.
#![tactic(auto)]

#[cfg(test)]
mod answered;
#[cfg(test)]
mod failing;
#[cfg(test)]
mod failing_writes;
#[cfg(test)]
mod gates;
