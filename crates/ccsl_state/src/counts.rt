//! The cells of the constraints: how often the left and the right clock of each ticked.

ghost use Rattle.std.specs.Prelude.{◌≡◌, ◌≢◌, ◌<◌, ◌+◌, ◌*◌, ℕ, length, slice_index};
ghost use Rattle.ccsl_state.specs.Tree.{bumped};
ghost use Rattle.ccsl_state.specs.Layout.{count_of};
ghost use Rattle.ccsl_state.specs.Held.{CellsCount};

use crate::cells::{bumped, count_at};
use ccsl_base::ClockSet;
use ccsl_kernel::System;

/// Counts the ticks of one constraint's clocks, in the cells from `at` on.
fn count_pair(cells: &mut [u64], at: usize, left: bool, right: bool)
    requires { at + 1 < length cells.old }
    ensures left { count_of (slice_index cells.new at) ≡
        bumped left (count_of (slice_index cells.old at)) }
    ensures right { count_of (slice_index cells.new (at + 1)) ≡
        bumped right (count_of (slice_index cells.old (at + 1))) }
    ensures others { (k : ℕ) → k ≢ at → k ≢ at + 1 →
        slice_index cells.new k ≡ slice_index cells.old k }
{
    cells[at] = bumped(left, count_at(cells[at]));
    cells[at + 1] = bumped(right, count_at(cells[at + 1]));
}

/// Counts the ticks of a step in the cells of the constraints.
pub fn count_ticks(system: &System, cells: &mut [u64], step: &ClockSet)
    requires { length cells.old ≡ 2 * length system.now.constraints }
    ensures { CellsCount system.now.constraints step.now cells.old cells.new }
{
    for j in 0..system.constraints() {
        let constraint = system.constraint(j);
        let (left, right) = (step.has(constraint.left), step.has(constraint.right));
        count_pair(cells, 2 * j as usize, left, right);
    }
}
