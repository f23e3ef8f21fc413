//! The states that some items need.

ghost use Rattle.std.specs.Prelude.{◌≡◌, ℕ, ◌||◌, [], All, IfOk};
ghost use Rattle.std.specs.List.{list_any};
ghost use Rattle.ccsl_base.specs.Clocks.{ticks_in};
ghost use Rattle.ccsl_relate.specs.Watching.{Suffice, AreAfter};
ghost use Rattle.ccsl_relate.specs.Reading.{clocks_of};
ghost use Rattle.ccsl_relate.specs.Following.{ReadsClocks, FollowsNoMore};

use crate::watched::Watched;
use ccsl_base::{ClockSet, Memory};
use ccsl_kernel::System;
use ccsl_state::Part;
use std::alloc::Global;

// Makes the clocks that an item reads members of a set.
fn add_clocks(watched: &Watched, clocks: &mut ClockSet)
    requires { ReadsClocks watched.now }
    ensures { (x : ℕ) → ticks_in x clocks.new ≡
        (ticks_in x clocks.old || ticks_in x (clocks_of watched.now)) }
{
    match watched {
        Watched::Nothing => {}
        Watched::Definition(clock) => clocks.insert(*clock),
        Watched::Relation(related) => {
            clocks.insert(related.left);
            clocks.insert(related.right);
        }
    }
}

// The clocks that some items read.
fn clocks_read(kept: &[Watched]) -> ClockSet
    requires { All ReadsClocks kept.now }
    ensures { (x : ℕ) → ticks_in x result ≡ list_any (λ w. ticks_in x (clocks_of w)) kept.now }
{
    let mut clocks = ClockSet::empty();
    for i in 0..kept.len() {
        add_clocks(&kept[i], &mut clocks);
    }
    clocks
}

/// The states of the definitions that some items lead to, where an item reads a defined clock.
pub(crate) fn states_for<'s>(
    alloc: Global,
    system: &'s System,
    kept: &[Watched],
) -> Result<Option<Part<'s>>, Memory>
    requires { All ReadsClocks kept.now }
    ensures suffice { IfOk result (λ held. Suffice system.now held kept.now) }
    ensures after { IfOk result (λ held. AreAfter system.now held []) }
    ensures least { IfOk result (λ held. FollowsNoMore system.now held kept.now) }
{
    let clocks = clocks_read(kept);
    if clocks.is_subset(&clocks.below(system.scope().declared)) {
        return Ok(None);
    }
    let part = Part::open(alloc, system, &clocks)?;
    Ok(Some(part))
}
