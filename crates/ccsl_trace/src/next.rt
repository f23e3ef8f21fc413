//! What a feed hands out.

use ccsl_vcd_read::Counts;

/// What is to be had of a feed now.
#[derive(Clone, Copy)]
pub enum Next {
    /// The header has ended: the bound clocks are known. No rows come with it.
    Bound,
    /// The block is full of the next rows.
    Rows,
    /// The trace has ended without a fault: the block has its last rows, and these are the counts of the whole.
    Ended(Counts),
}
