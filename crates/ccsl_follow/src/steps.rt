//! The full steps of a trace: what of the clocks that are followed ticks with each row.

ghost use Rattle.std.specs.Prelude.{◌≡◌, ℕ, ◌+◌, ◌<◌, ◌^◌, List, [], ◌∷◌, ◌++◌, true, length, IfOk};
ghost use Rattle.ccsl_base.specs.Clocks.{ticks_in};
ghost use Rattle.ccsl_kernel.specs.Syntax.{System};
ghost use Rattle.ccsl_kernel.specs.Lives.{Step};
ghost use Rattle.ccsl_kernel.specs.Runs.{full_step, declared_part};
ghost use Rattle.ccsl_state.specs.Part.{part_of, PartStandsFor};
ghost use Rattle.ccsl_relate.specs.Watching.{IsUndeclared};
ghost use Rattle.ccsl_follow.specs.Counting.{AreRows};

use crate::states::States;
use ccsl_base::{ClockSet, MAX_CLOCKS, Memory};
use ccsl_kernel::System;
use std::alloc::Global;
use std::marker::Model;

/// The states of the definitions that some clocks lead to, and the last step. A step takes no memory.
pub struct Steps<'s> {
    part: States<'s>,
    // all clocks that the system does not declare
    undeclared: ClockSet,
    step: ClockSet,
}

// By hand and not derived: to the prover, an early return then drops one by a single call.
impl<'s> Drop for Steps<'s> {
    fn drop(self) {
        let Steps {
            part: _part,
            undeclared: _,
            step: _,
        } = self;
    }
}

impl<'s> Model for Steps<'s> {
    ghost use Rattle.std.specs.Coded.{codes};
    ghost use Rattle.ccsl_kernel.specs.Coded.{coded_expression};
    ghost use Rattle.ccsl_follow.specs.Following.{Following};

    ghost Value = { Following };

    ghost coded = { Prim.hlevel (codes, coded_expression) };

    ghost use Rattle.ccsl_relate.specs.Watching.{IsUndeclared};

    ghost view = { λ s. record { part = s.part; step = s.step } };

    ghost invariant = { λ s. IsUndeclared s.part.system s.undeclared };
}

// All clocks that the system does not declare.
fn undeclared(system: &System) -> ClockSet
    ensures { IsUndeclared system.now result }
{
    let mut clocks = ClockSet::empty();
    for clock in system.scope().declared..MAX_CLOCKS {
        clocks.insert(clock);
    }
    clocks
}

// Puts the declared clocks among some into a set.
#[inline(always)]
fn put_declared(declared: &mut ClockSet, ticks: &ClockSet, undeclared: &ClockSet)
    ensures { (K : System) → IsUndeclared K undeclared.now →
        declared.new ≡ declared_part K ticks.now }
{
    ticks.ascends();
    declared.copy_difference(ticks, undeclared);
    declared.ascends();
}

impl<'s> Steps<'s> {
    /// Before the first step. These clocks are followed, and all that their definitions lead to.
    pub fn open(alloc: Global, system: &'s System, clocks: &ClockSet) -> Result<Steps<'s>, Memory>
        ensures system { IfOk result (λ s. s.part.system ≡ system.now) }
        ensures has { IfOk result (λ s. (x : ℕ) →
            ticks_in x clocks.now ≡ true → ticks_in x s.part.followed ≡ true) }
        ensures stands { IfOk result (λ s. PartStandsFor s.part []) }
    {
        let part = States::open(alloc, system, clocks)?;
        Ok(Steps {
            part,
            undeclared: undeclared(system),
            step: ClockSet::empty(),
        })
    }

    /// Goes on by the full step that a row with these ticks completes.
    #[inline(always)]
    pub fn go_on(&mut self, ticks: &ClockSet)
        ensures system { self.new.part.system ≡ self.old.part.system }
        ensures followed { self.new.part.followed ≡ self.old.part.followed }
        ensures step { (T : List Step) → PartStandsFor self.old.part T →
            let K = self.old.part.system in self.new.step ≡ part_of self.old.part (full_step K T (declared_part K ticks.now)) }
        ensures stands { (T : List Step) → PartStandsFor self.old.part T → length T + 1 < 2 ^ 64 →
            let K = self.old.part.system in PartStandsFor self.new.part (T ++ full_step K T (declared_part K ticks.now) ∷ []) }
    {
        put_declared(&mut self.step, ticks, &self.undeclared);
        self.part.go_on(&mut self.step);
    }

    /// Whether a row can be counted in place of the step that it completes.
    pub(crate) fn are_rows(&self) -> bool
        ensures { result ≡ true → AreRows self.now.part }
    {
        self.part.are_rows()
    }

    /// The clocks that are followed.
    pub fn followed(&self) -> &ClockSet
        ensures { result.now ≡ self.now.part.followed }
    {
        self.part.followed()
    }

    /// What of the last step is declared or followed.
    pub fn step(&self) -> &ClockSet
        ensures { result.now ≡ self.now.step }
    {
        &self.step
    }
}
