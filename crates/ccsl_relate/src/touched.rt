//! The items that read a clock that ticks, and no others: only these can fail or change in a step.

ghost use Rattle.std.specs.Prelude.{◌≡◌, ℕ, ◌+◌, ◌<◌, ◌≤◌, ◌^◌, List, [], length, map, slice_index_or, IfSome, IfNone};
ghost use Rattle.ccsl_base.specs.declared.limits.TheConstants.{MAX_CLOCKS};
ghost use Rattle.ccsl_relate.specs.Few.{HasRoom, EachHasRoom};
ghost use Rattle.ccsl_relate.specs.declared.watched.Watched.{Watched};
ghost use Rattle.ccsl_relate.specs.Reading.{clocks_of, TellsFrom, AreReaders, Fit, Touches, FailsFrom, GoesOn, TakeStep};

use crate::readers::{GROUP, Group, Readers};
use crate::watched::{Watched, first_failing};
use ccsl_base::ClockSet;

/// So many items are looked at in the time that it takes to gather the places of a clock that ticks, and of those that
/// it makes tick.
const ITEMS_A_CLOCK: usize = 8;

// Puts into a set without members the places of the items of a group that read a clock which ticks. A row seldom has a
// tick that its step lacks.
#[inline(always)]
fn touch(group: &Group, ticks: &ClockSet, step: &ClockSet, touched: &mut ClockSet)
    requires { touched.old ≡ [] }
    ensures { (start : ℕ) (kept : List Watched) → TellsFrom start group.now (map clocks_of kept) →
        Touches ticks.now step.now touched.new start kept }
{
    group.gather(step, touched);
    if !ticks.is_subset(step) {
        group.gather(ticks, touched);
    }
}

// The first item that fails, of those at some places behind `start`. The others of the group neither fail nor change.
#[inline(always)]
fn first_at(
    kept: &mut [Watched],
    start: usize,
    touched: &ClockSet,
    ticks: &ClockSet,
    step: &ClockSet,
) -> Option<u32>
    requires few { length kept.old < 2 ^ 32 }
    requires room { (k : ℕ) (d : Watched) → start ≤ k → k < length kept.old →
        HasRoom (slice_index_or kept.old k d) }
    requires touched { Touches ticks.now step.now touched.now start kept.old }
    ensures clocks { map clocks_of kept.new ≡ map clocks_of kept.old }
    ensures fails { IfSome result (FailsFrom ticks.now step.now start kept.old) }
    ensures none { IfNone result
        (GoesOn ticks.now step.now start (start + MAX_CLOCKS) kept.old kept.new) }
{
    for place in touched.members() {
        let at = start + place as usize;
        if kept[at].fails(ticks, step) {
            return Some(at as u32);
        }
    }
    None
}

// As `first_failing` tells it, of the items that are looked at.
#[inline(always)]
fn first_touched(
    kept: &mut [Watched],
    readers: &Readers,
    ticks: &ClockSet,
    step: &ClockSet,
) -> Option<u32>
    requires readers { AreReaders readers.now (map clocks_of kept.old) }
    requires few { length kept.old < 2 ^ 32 }
    requires room { EachHasRoom kept.old }
    ensures { TakeStep ticks.now step.now kept.old kept.new result }
{
    let groups = readers.groups();
    for i in 0..groups.len() {
        let mut touched = ClockSet::empty();
        touch(&groups[i], ticks, step, &mut touched);
        let place = first_at(kept, i * GROUP, &touched, ticks, step);
        if place.is_some() {
            return place;
        }
    }
    None
}

/// The place of the first item that fails in the step that a row with these ticks completes, as `first_failing` tells
/// it. Where it is known which items read a clock and few clocks tick, no others than those that read one that ticks
/// are looked at.
#[inline(always)]
pub(crate) fn first_read(
    kept: &mut [Watched],
    readers: &Option<Readers>,
    ticks: &ClockSet,
    step: &ClockSet,
) -> Option<u32>
    requires readers { Fit readers.now kept.old }
    requires few { length kept.old < 2 ^ 32 }
    requires room { EachHasRoom kept.old }
    ensures { TakeStep ticks.now step.now kept.old kept.new result }
{
    match readers {
        Some(readers) if (ticks.len() as usize) < kept.len() / ITEMS_A_CLOCK => {
            first_touched(kept, readers, ticks, step)
        }
        _ => first_failing(kept, ticks, step),
    }
}
