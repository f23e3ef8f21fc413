//! The whole row of a system: the regions of the definitions, and behind them the cells of the constraints.

ghost use Rattle.std.specs.Prelude.{◌≡◌, ◌≤◌, ◌<◌, ◌+◌, ◌*◌, ℕ, [], drop, length, slice_index};
ghost use Rattle.ccsl_kernel.specs.Accepted.{IsAccepted};
ghost use Rattle.ccsl_state.specs.States.{opened_all};
ghost use Rattle.ccsl_state.specs.Below.{TreesBelow};
ghost use Rattle.ccsl_state.specs.Held.{trees_of, deaths_of, counts_of, derived_by, Advances};
ghost use Rattle.ccsl_state.specs.Whole.{held_at, IsWhole};

use crate::counts::count_ticks;
use crate::definitions::{advance_from, derive_from, open_from};
use crate::layout::Layout;
use ccsl_base::ClockSet;

/// The full step that a row went on by, and the clocks that are dead after it.
#[derive(Drop)]
pub struct Passed {
    pub step: ClockSet,
    pub gone: ClockSet,
}

/// The cells before those of the constraints.
pub fn before_counts(lay: &Layout<'_>, row: &[u64]) -> usize
    requires accepted { IsAccepted lay.now.system.now }
    requires whole { IsWhole lay.now row.now }
    ensures { result + 2 * length lay.now.system.now.constraints ≡ length row.now }
{
    row.len() - 2 * lay.system.constraints() as usize
}

/// Writes the regions before the first step, and answers the dead clocks.
pub fn open_row(lay: &Layout<'_>, row: &mut [u64]) -> ClockSet
    requires accepted { IsAccepted lay.now.system.now }
    requires whole { IsWhole lay.now row.old }
    ensures trees { trees_of (held_at lay.now row.new) ≡
        opened_all lay.now.system.now lay.now.system.now.definitions }
    ensures counts { counts_of (held_at lay.now row.new) ≡ counts_of (held_at lay.now row.old) }
    ensures gone { result ≡ deaths_of (held_at lay.now row.new) }
    ensures below { TreesBelow lay.now.system.now.declared (trees_of (held_at lay.now row.new)) }
{
    let mut gone = ClockSet::empty();
    let end = before_counts(lay, row);
    let (front, _) = row.split_at_mut(end);
    open_from(lay, 0, front, &mut gone);
    gone
}

/// The full step that declared ticks give.
#[tactic(auto, using(crate::proofs::WholeLaws::whole_regions))]
pub fn derive_row(lay: &Layout<'_>, row: &[u64], declared: &ClockSet) -> ClockSet
    requires accepted { IsAccepted lay.now.system.now }
    requires whole { IsWhole lay.now row.now }
    ensures { result ≡ derived_by (held_at lay.now row.now) declared.now }
{
    let mut step = declared.copy();
    derive_from(lay, 0, row, &mut step);
    step
}

/// Goes on by the full step that declared ticks give.
pub fn advance_row(lay: &Layout<'_>, row: &mut [u64], declared: &ClockSet) -> Passed
    requires accepted { IsAccepted lay.now.system.now }
    requires whole { IsWhole lay.now row.old }
    requires below { TreesBelow lay.now.system.now.declared (trees_of (held_at lay.now row.old)) }
    ensures step { result.step ≡ derived_by (held_at lay.now row.old) declared.now }
    ensures next { Advances (held_at lay.now row.old) result.step (held_at lay.now row.new) }
    ensures gone { result.gone ≡ deaths_of (held_at lay.now row.new) }
    ensures below { TreesBelow lay.now.system.now.declared (trees_of (held_at lay.now row.new)) }
{
    let mut step = declared.copy();
    let mut gone = ClockSet::empty();
    let end = before_counts(lay, row);
    let (front, counts) = row.split_at_mut(end);
    advance_from(lay, 0, front, &mut step, &mut gone);
    count_ticks(lay.system, counts, &step);
    Passed { step, gone }
}
