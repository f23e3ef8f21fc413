//! The names of clocks.

use ccsl_base::Memory;
use ccsl_kernel::System;
use ccsl_page::{Page, Piece};

/// The name of a clock, and nothing where the system has no such clock.
pub fn clock_name(system: &System, clock: u32) -> &[u8] {
    let names = system.names();
    if clock < names.len() {
        names.get(clock)
    } else {
        b"".as_slice()
    }
}

/// Puts the name of a clock.
pub fn put_clock(page: &mut Page, system: &System, clock: u32) -> Result<(), Memory> {
    page.put(&[Piece::Name(clock_name(system, clock))])
}
