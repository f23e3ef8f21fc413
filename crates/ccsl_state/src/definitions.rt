//! The regions of all definitions, one behind the other, in the order of their clocks.

ghost use Rattle.std.specs.Prelude.{◌≡◌, ◌<◌, ◌+◌, drop};
ghost use Rattle.ccsl_state.specs.States.{put, passed_all, deaths_from, derived_in, opened_all};
ghost use Rattle.ccsl_state.specs.Regions.{trees_from};
ghost use Rattle.ccsl_state.specs.Ready.{HasRegions};

use crate::advance::advance;
use crate::heard::heard;
use crate::layout::Layout;
use crate::open::opened;
use ccsl_base::{ClockSet, MAX_CLOCKS};

/// Makes a clock a member of a set, or leaves the set as it is.
pub fn put(set: &mut ClockSet, clock: u32, member: bool)
    requires { clock < MAX_CLOCKS }
    ensures { set.new ≡ put member clock set.old }
{
    if member {
        set.insert(clock);
    }
}

/// Writes the regions of the definitions from number `i` on at the birth. `gone` has the dead clocks before, and then
/// all.
pub fn open_from(lay: &Layout<'_>, i: u32, row: &mut [u64], gone: &mut ClockSet)
    requires { HasRegions lay.now i row.old }
    ensures trees { trees_from lay.now i row.new ≡
        opened_all lay.now.system.now (drop i lay.now.system.now.definitions) }
    ensures gone { gone.new ≡ deaths_from gone.old (lay.now.system.now.declared + i)
        (opened_all lay.now.system.now (drop i lay.now.system.now.definitions)) }
{
    if i < lay.system.definitions() {
        let born = opened(lay, lay.system.definition(i), &[], row, gone);
        put(gone, lay.system.scope().declared + i, born.dead);
        let (_, rest) = row.split_at_mut(born.size);
        open_from(lay, i + 1, rest, gone);
    }
}

/// Rewrites the regions of the definitions from number `i` on after a step. `step` has the ticks of the clocks before,
/// and then all; `gone` has those that are dead after it.
pub fn advance_from(
    lay: &Layout<'_>,
    i: u32,
    row: &mut [u64],
    step: &mut ClockSet,
    gone: &mut ClockSet,
)
    requires { HasRegions lay.now i row.old }
    ensures trees { trees_from lay.now i row.new ≡
        passed_all lay.now.system.now step.old gone.old (lay.now.system.now.declared + i)
        (trees_from lay.now i row.old) }
    ensures step { step.new ≡ derived_in (trees_from lay.now i row.old)
        (lay.now.system.now.declared + i) step.old }
    ensures gone { gone.new ≡ deaths_from gone.old (lay.now.system.now.declared + i)
        (trees_from lay.now i row.new) }
{
    if i < lay.system.definitions() {
        let moved = advance(lay, lay.system.definition(i), &[], row, step, gone);
        let clock = lay.system.scope().declared + i;
        put(step, clock, moved.tick);
        put(gone, clock, moved.dead);
        let (_, rest) = row.split_at_mut(moved.size);
        advance_from(lay, i + 1, rest, step, gone);
    }
}

/// Adds to a step the ticks of the definitions from number `i` on, each under those before it.
pub fn derive_from(lay: &Layout<'_>, i: u32, row: &[u64], step: &mut ClockSet)
    requires { HasRegions lay.now i row.now }
    ensures { step.new ≡ derived_in (trees_from lay.now i row.now)
        (lay.now.system.now.declared + i) step.old }
{
    if i < lay.system.definitions() {
        let heard = heard(lay, lay.system.definition(i), &[], row, step);
        put(step, lay.system.scope().declared + i, heard.tick);
        let (_, rest) = row.split_at(heard.size);
        derive_from(lay, i + 1, rest, step);
    }
}
