//! Which clocks are drawn.

use ccsl_base::{ClockSet, MAX_CLOCKS, Memory};
use ccsl_kernel::System;
use std::alloc::Global;

/// The most clocks that are drawn.
const ROWS: usize = 16;

/// The clocks that an item names itself. None where the system has no such item.
pub fn clocks_of(system: &System, item: u32) -> ClockSet {
    let mut clocks = ClockSet::empty();
    if item < system.definitions() {
        let clock = system.scope().declared.saturating_add(item);
        if clock < MAX_CLOCKS {
            clocks.insert(clock);
        }
        return clocks;
    }
    let number = item - system.definitions();
    if number < system.constraints() {
        let constraint = system.constraint(number);
        if constraint.left < MAX_CLOCKS && constraint.right < MAX_CLOCKS {
            clocks.insert(constraint.left);
            clocks.insert(constraint.right);
        }
    }
    clocks
}

/// The clocks that are drawn for an item: those that it names, and behind them those that their definitions lead to,
/// up to 16.
pub fn rows_of(alloc: Global, own: &ClockSet, followed: &ClockSet) -> Result<Vec<u32>, Memory> {
    let mut rows = Vec::new(alloc);
    for clock in own.members() {
        rows.push(clock)?;
    }
    for clock in followed.members() {
        if rows.len() < ROWS && !own.has(clock) {
            rows.push(clock)?;
        }
    }
    Ok(rows)
}

/// Some clocks as a set. A number that no clock has is left out.
pub fn set_of(rows: &[u32]) -> ClockSet {
    let mut set = ClockSet::empty();
    for clock in rows {
        if *clock < MAX_CLOCKS {
            set.insert(*clock);
        }
    }
    set
}
