//! From a simulation to a verdict: what is written as a trace is judged to be a run.
//!
//!     simulated_traces_are_runs(&system);         // a law: for every policy, seed and number of steps
//!     ticks_in_text(alloc, &system, text, steps)? // how many ticks the text of so many steps shows
//!
//! `simulated_traces_are_runs` ties ccsl_simulate, ccsl_vcd_write, ccsl_vcd_read and ccsl_judge: the text of a
//! simulation of any accepted system reads without a fault, has a row a step, and is judged to be a run of all its
//! steps; its rows, completed, are these steps again. The steps are 10,000,000 at most, as many as a simulation may
//! have.
//!
//! `ticks_in_text` counts the ticks of such a text by its lines. It wants, by contract, a text that is written of these
//! steps, and counts the clocks that the specification itself declares or defines; hidden ones are not written.
//!
//! Both are proved. The only error is want of memory. ccsl_top uses them for `trial`, which so has no answer but a run,
//! and for its law that `certify` accepts what `simulate` wrote.
#![tactic(auto)]

pub mod laws;
pub mod ticks;

pub use ticks::ticks_in_text;
