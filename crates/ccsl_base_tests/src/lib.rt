//! Tests alone, of what no script can bring about: files whose calls fail, and threads that meet. Nothing is claimed of
//! this crate, and no other one uses it.
//!
//!     fn a_new_file_is_put_in_place_or_removed(rt)     // edge: what FileWorld leaves, with and without a fault
//!     fn two_parts_meet_at_the_gate_and_at_work(rt)    // pool: each part waits for the other one
//!
//! `edge` gives `FileWorld` of ccsl_files a system made here, whose files read short, fill the buffer, and fail at a
//! chosen byte. It looks at what was read, at which names are there in the end and which files were removed.
//!
//! `pool` gives `check_all` of ccsl_pool pieces and gates that count and wait. It looks at how many parts there are, at
//! the numbers by which they enter, and whether each one enters before it works. That two parts run side by side is no
//! clause: it is seen here, and in ccsl_top_tests.
#![tactic(auto)]

#[cfg(test)]
mod edge;
#[cfg(test)]
mod pool;
