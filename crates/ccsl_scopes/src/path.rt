//! Paths.

use crate::select::Select;

/// The parts of a path, with a blank between two, and what stands in brackets behind them.
#[derive(Drop)]
pub struct Path {
    pub parts: Vec<u8>,
    pub select: Select,
}
