//! The values of variables before a time and after it, what they set off, and what is written of the time.
//!
//!     signal.set(b"1", false)?;                   // a value at the present time, outside a dump block
//!     watch.happens(signals)                      // whether its name happens at this time
//!     put_row(&line, &names, &mut out)?;          // "#35\n1!\n", and whether there is a row
//!     signal.settle()?;                           // the time is over
//!
//! A `Signal` has a variable's letters before the present time and after it, in lower case, extended on the left, as
//! IEEE 1364-2005, clause 18.2, has it, or cut to the variable's size. A `Watch` is the trigger of one name with its
//! conditions: a trigger looks at both values, a condition at the one before, and the first value of a variable sets
//! off nothing. Variables and names go by their numbers, from 0; a time is the digits that the dump has, in the dump's
//! own unit.
//!
//! Proved: what is kept of a variable behind a value, behind a time and behind a gap; whether a name happens; the text
//! of a row. The only error is want of memory. ccsl_events puts these together over a dump.
#![tactic(auto)]

pub mod row;
pub mod signal;
pub mod time_line;
pub mod watch;

pub use row::{put_code, put_row};
pub use signal::Signal;
pub use time_line::{COPIED, TimeLine};
pub use watch::{Goal, Part, Trigger, Watch};
