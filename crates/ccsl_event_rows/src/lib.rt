//! What is written of a dump's events reads back, by the definitions that `judge` goes by.
//!
//!     events_read_back()                          // the rows of what is written are the times at which a name happens
//!     what_is_read_may_be_written()               // names, time scale and plan are as that wants them
//!     what_is_made_reads_back()                   // so it is with the whole trace that `ccsl-events` makes
//!
//! There is no code here, but laws: each function does nothing, and its contract is the law. They tie ccsl_events,
//! which says what `ccsl-events` writes, to ccsl_vcd, ccsl_bind and ccsl_judge, which say what a trace is worth to
//! `ccsl`.
//!
//! A law speaks of each system whose declared clocks have their names in the file of events, as long as the text keeps
//! to the limits of a trace. What is written reads without a fault, up to the first fault of the dump or to its end; a
//! row has all clocks whose name happens at its time, in the dump's own unit; and the verdict is that on these rows.
//! Nothing is said of the dump's simulator: that it wrote what went on in the design is not asked.
//!
//! No code calls these laws. Together with `Headline` of ccsl_events_top they say what a pipe from `ccsl-events` to
//! `ccsl judge` answers.
#![tactic(auto)]

pub mod laws;

pub use laws::{events_read_back, what_is_made_reads_back, what_is_read_may_be_written};
