//! The step that a row completes, and the items that fail in it.

ghost use Rattle.std.specs.Prelude.{◌≡◌, ◌+◌, ◌<◌, ◌≤◌, ◌^◌, List, length, take, Some, IsTrue};
ghost use Rattle.std.specs.Option.{ForSome};
ghost use Rattle.ccsl_kernel.specs.Syntax.{System};
ghost use Rattle.ccsl_kernel.specs.Lives.{Step};
ghost use Rattle.ccsl_kernel.specs.Runs.{declared_part};
ghost use Rattle.ccsl_relate.specs.Few.{EachHasRoom};
ghost use Rattle.ccsl_relate.specs.Reading.{Fit};
ghost use Rattle.ccsl_relate.specs.Completed.{IsCompleted, Completes, TakeTicks};
ghost use Rattle.ccsl_relate.specs.Watching.{IsUndeclared, AreAfter, are_sets};

use crate::readers::Readers;
use crate::touched::first_read;
use crate::watched::Watched;
use ccsl_base::{ClockSet, MAX_CLOCKS, Row};
use ccsl_kernel::System;
use ccsl_state::Part;

/// All clocks that the system does not declare.
pub(crate) fn undeclared(system: &System) -> ClockSet
    ensures { IsUndeclared system.now result }
{
    let mut clocks = ClockSet::empty();
    for clock in system.scope().declared..MAX_CLOCKS {
        clocks.insert(clock);
    }
    clocks
}

/// Each row is a set.
pub(crate) fn rows_are_sets(rows: &[Row])
    ensures { IsTrue (are_sets rows.now) }
{
    for i in 0..rows.len() {
        rows[i].ticks.ascends();
    }
}

// The declared clocks among some.
#[inline(always)]
fn put_declared(declared: &mut ClockSet, ticks: &ClockSet, undeclared: &ClockSet)
    ensures { (K : System) → IsUndeclared K undeclared.now →
        declared.new ≡ declared_part K ticks.now }
{
    declared.copy_difference(ticks, undeclared);
    ticks.ascends();
    declared.ascends();
}

// Puts into a set what is known of the step that a row with these ticks completes. The states go on by it.
#[inline(always)]
fn next_step(states: &mut Part<'_>, undeclared: &ClockSet, ticks: &ClockSet, step: &mut ClockSet)
    requires { IsUndeclared states.old.system undeclared.now }
    ensures system { states.new.system ≡ states.old.system }
    ensures completed { (K : System) (T : List Step) →
        AreAfter K (Some states.old) T → length T + 1 < 2 ^ 64 →
        IsCompleted K T (Some states.old) ticks.now step.new (Some states.new) }
{
    put_declared(step, ticks, undeclared);
    states.go_on(step);
}

/// Puts what is known of the steps that some rows complete into the ticks of as many others, which have no times of
/// their own. The states go on by them.
pub(crate) fn complete(
    states: &mut Part<'_>,
    undeclared: &ClockSet,
    rows: &[Row],
    completed: &mut [Row],
)
    requires undeclared { IsUndeclared states.old.system undeclared.now }
    requires room { length rows.now ≤ length completed.old }
    ensures room { length completed.new ≡ length completed.old }
    ensures completed { (K : System) (T : List Step) →
        AreAfter K (Some states.old) T → length T + length rows.now < 2 ^ 64 →
        Completes K T (Some states.old) rows.now (take (length rows.now) completed.new)
        (Some states.new) }
{
    for i in 0..rows.len() {
        next_step(states, undeclared, &rows[i].ticks, &mut completed[i].ticks);
    }
}

/// The place of the first item that fails in the step that a row with these ticks completes. Where none does, all go on
/// by the step, and the states with them. Where there are none, no step is made: the row's ticks are all that the items
/// read of it. `step` is room for it, and what it has counts for nothing.
#[inline(always)]
pub(crate) fn first_violated(
    states: &mut Option<Part<'_>>,
    undeclared: &ClockSet,
    kept: &mut [Watched],
    readers: &Option<Readers>,
    ticks: &ClockSet,
    step: &mut ClockSet,
) -> Option<u32>
    requires undeclared { ForSome states.old (λ p. IsUndeclared p.system undeclared.now) }
    requires readers { Fit readers.now kept.old }
    requires few { length kept.old < 2 ^ 32 }
    requires room { EachHasRoom kept.old }
    ensures { TakeTicks ticks.now states.old states.new kept.old kept.new result }
{
    match states {
        Some(states) => {
            next_step(states, undeclared, ticks, step);
            first_read(kept, readers, ticks, step)
        }
        None => first_read(kept, readers, ticks, ticks),
    }
}
