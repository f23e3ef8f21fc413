//! Which definitions read a clock.

ghost use Rattle.std.specs.Prelude.{◌≡◌, ◌<◌, ◌+◌, ◌||◌, ◌&&◌, ℕ, [], true, false, length, nat_eq, nat_lt, slice_index_or, IfOk};
ghost use Rattle.ccsl_base.specs.Clocks.{ticks_in, is_ascending};
ghost use Rattle.ccsl_state.specs.Passing.{AreReaders};
ghost use Rattle.ccsl_state.specs.Visits.{is_waiting};

use crate::reach::add_named;
use ccsl_base::{ClockSet, MAX_CLOCKS, Memory};
use ccsl_kernel::System;
use std::alloc::Global;

/// The clocks whose definitions are followed, and for each clock the numbers of the followed definitions that read it.
#[derive(Drop)]
pub struct Readers {
    pub followed: ClockSet,
    pub sets: Vec<ClockSet>,
}

/// Definition number `i` reads some clocks.
fn add_reader(clocks: &ClockSet, i: u32, sets: &mut [ClockSet])
    requires within { (y : ℕ) → ticks_in y clocks.now ≡ true → y < length sets.old }
    requires number { i < MAX_CLOCKS }
    ensures { (y p : ℕ) → ticks_in p (slice_index_or sets.new y []) ≡
        ((nat_eq p i && ticks_in y clocks.now) || ticks_in p (slice_index_or sets.old y [])) }
{
    for clock in clocks.members() {
        sets[clock as usize].insert(i);
    }
}

/// So many sets without members.
fn empty_sets(alloc: Global, count: usize) -> Result<Vec<ClockSet>, Memory>
    ensures count { IfOk result (λ v. length v.items ≡ count) }
    ensures empty { IfOk result (λ v. (y : ℕ) → slice_index_or v.items y [] ≡ []) }
{
    let mut sets = Vec::new(alloc);
    for _ in 0..count {
        sets.push(ClockSet::empty())?;
    }
    Ok(sets)
}

impl Readers {
    /// Those of the clocks whose definitions are followed.
    pub fn open(alloc: Global, system: &System, followed: ClockSet) -> Result<Readers, Memory>
        ensures followed { IfOk result (λ r. r.followed ≡ followed) }
        ensures readers { IfOk result (λ r. AreReaders system.now followed r.sets.items) }
    {
        let declared = system.scope().declared;
        let count = declared as usize + system.definitions() as usize;
        let mut sets = empty_sets(alloc, count)?;
        for i in 0..system.definitions() {
            if followed.has(declared + i) {
                let mut named = ClockSet::empty();
                add_named(system.definition(i), &mut named);
                add_reader(&named, i, sets.as_mut_slice());
            }
        }
        Ok(Readers { followed, sets })
    }

    /// The numbers of the followed definitions.
    #[tactic(auto, using(std::proofs::lemmas::Grind::common_steps, crate::proofs::Visiting::numbers_more))]
    pub fn numbers(&self, system: &System) -> ClockSet
        ensures { (i : ℕ) → ticks_in i result ≡
            (nat_lt i (length system.now.definitions)
            && ticks_in (system.now.declared + i) self.now.followed) }
    {
        let declared = system.scope().declared;
        let mut numbers = ClockSet::empty();
        for i in 0..system.definitions() {
            numbers.put(i, self.followed.has(declared + i));
        }
        numbers
    }

    /// Makes those wait that read a clock that ticks.
    #[inline(always)]
    pub fn hear(&self, step: &ClockSet, unsettled: &ClockSet, waiting: &mut ClockSet)
        ensures waiting { (p : ℕ) → ticks_in p waiting.new ≡
            is_waiting self.now.sets.items unsettled.now step.now p }
        ensures ascends { is_ascending step.now ≡ true }
    {
        waiting.copy_from(unsettled);
        for clock in step.members() {
            if let Some(readers) = self.sets.get(clock as usize) {
                waiting.insert_all(readers);
            }
        }
    }
}
