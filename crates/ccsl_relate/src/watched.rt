//! What is kept of items from row to row.

ghost use Rattle.std.specs.Prelude.{◌≡◌, ◌+◌, ◌<◌, ◌≤◌, ◌^◌, [], not, length, IfOk};
ghost use Rattle.ccsl_kernel.specs.Syntax.{item_count};
ghost use Rattle.ccsl_kernel.specs.Accepted.{Each};
ghost use Rattle.ccsl_relate.specs.Few.{HasRoom, EachHasRoom};
ghost use Rattle.ccsl_relate.specs.Watching.{Keeps, related_formula, fails_in, counted_on, next_in};
ghost use Rattle.ccsl_relate.specs.Reading.{TakeStep};

use crate::relation::holds;
use ccsl_base::{ClockSet, Memory};
use ccsl_kernel::{RelationKind, System};
use std::alloc::Global;

/// A relation between two clocks that have ticked so often.
#[derive(Clone, Copy)]
pub struct Related {
    pub kind: RelationKind,
    pub left: u32,
    pub right: u32,
    pub left_count: u64,
    pub right_count: u64,
}

/// What a row is compared with.
#[derive(Clone, Copy)]
pub enum Watched {
    /// The definition of a clock that was not recorded: no row violates it.
    Nothing,
    /// The definition of this recorded clock.
    Definition(u32),
    Relation(Related),
}

impl Related {
    /// Whether the relation fails in a step. The ticks of its clocks are counted.
    #[inline(always)]
    pub(crate) fn fails(&mut self, step: &ClockSet) -> bool
        requires few { (self.old.left_count + 1 < 2 ^ 64) × (self.old.right_count + 1 < 2 ^ 64) }
        ensures fails { result ≡ not (related_formula self.old step.now) }
        ensures next { self.new ≡ counted_on self.old step.now }
    {
        let left = step.has(self.left);
        let right = step.has(self.right);
        let holds = holds(self.kind, left, right, self.left_count, self.right_count);
        self.left_count += left as u64;
        self.right_count += right as u64;
        !holds
    }
}

impl Watched {
    /// What is kept of an item before the first row.
    fn open(system: &System, item: u32, recorded: &ClockSet) -> Watched
        requires { item < item_count system.now }
        ensures { Keeps system.now recorded.now [] item result }
    {
        if item < system.definitions() {
            let clock = system.scope().declared + item;
            return if recorded.has(clock) {
                Watched::Definition(clock)
            } else {
                Watched::Nothing
            };
        }
        let constraint = system.constraint(item - system.definitions());
        Watched::Relation(Related {
            kind: constraint.kind,
            left: constraint.left,
            right: constraint.right,
            left_count: 0,
            right_count: 0,
        })
    }

    /// Whether the item fails in the step that a row with these ticks completes. It goes on by the step.
    #[inline(always)]
    pub(crate) fn fails(&mut self, ticks: &ClockSet, step: &ClockSet) -> bool
        requires { HasRoom self.old }
        ensures fails { result ≡ fails_in ticks.now step.now self.old }
        ensures next { self.new ≡ next_in step.now self.old }
    {
        match self {
            Watched::Nothing => false,
            Watched::Definition(clock) => ticks.has(*clock) != step.has(*clock),
            Watched::Relation(related) => related.fails(step),
        }
    }
}

/// What is kept of `count` items from `start` on, before the first row.
pub(crate) fn open_all(
    alloc: Global,
    system: &System,
    start: u32,
    count: u32,
    recorded: &ClockSet,
) -> Result<Vec<Watched>, Memory>
    requires { start + count ≤ item_count system.now }
    ensures keeps { IfOk result (λ kept. Each (Keeps system.now recorded.now []) start kept.items) }
    ensures count { IfOk result (λ kept. length kept.items ≡ count) }
{
    system.is_accepted();
    let mut kept = Vec::with_capacity(alloc, count as usize)?;
    for place in 0..count {
        kept.push(Watched::open(system, start + place, recorded))?;
    }
    Ok(kept)
}

/// The place of the first item that fails in the step that a row with these ticks completes. Where none does, all go on
/// by the step.
#[inline(always)]
pub(crate) fn first_failing(kept: &mut [Watched], ticks: &ClockSet, step: &ClockSet) -> Option<u32>
    requires few { length kept.old < 2 ^ 32 }
    requires room { EachHasRoom kept.old }
    ensures { TakeStep ticks.now step.now kept.old kept.new result }
{
    for i in 0..kept.len() {
        if kept[i].fails(ticks, step) {
            return Some(i as u32);
        }
    }
    None
}
