//! One block of rows, taken by many pieces, by one thread or many: the answer is that of one thread.
//!
//!     impl<'s> Piece for Share<'s> { .. }            // in ccsl_judge: its `work` takes the rows of a block
//!     check_all(rt, shares, &block, 4, &NoGate);     // all shares, by four threads at most
//!
//! A `Piece` takes a block and is as its own `work` leaves it. `check_all` divides the pieces among so many workers, no
//! more than there are pieces, and waits for all of them. Where no thread can be started the caller's does that part
//! too. It takes no memory, and so has no error.
//!
//! A `Gate` is entered by each part before it works, with its number from the left, from 0; `NoGate` lets all through.
//! Tests use gates that wait, to show that parts overlap.
//!
//! Proved: each piece is as its own `work` leaves it, for every number of workers and every gate. Which thread does
//! what is code, no clause; ccsl_base_tests looks at it. ccsl_judge gives it the shares of a system's items.
#![tactic(auto)]

pub mod gate;
pub mod piece;
pub mod pool;

pub use gate::{Gate, NoGate};
pub use piece::Piece;
pub use pool::check_all;
