//! The states of definitions, where some are followed.

ghost use Rattle.std.specs.Prelude.{◌≡◌, ◌<◌, ◌+◌, ◌^◌, ℕ, List, [], ◌∷◌, ◌++◌, true, length, IfOk};
ghost use Rattle.ccsl_base.specs.Clocks.{ticks_in, are_below};
ghost use Rattle.ccsl_kernel.specs.Lives.{Step};
ghost use Rattle.ccsl_kernel.specs.Runs.{full_step};
ghost use Rattle.ccsl_state.specs.Part.{part_of, PartStandsFor};
ghost use Rattle.ccsl_follow.specs.Following.{held_part, Follows};
ghost use Rattle.ccsl_follow.specs.Counting.{AreRows};

use ccsl_base::{ClockSet, Memory};
use ccsl_kernel::System;
use ccsl_state::Part;
use std::alloc::Global;
use std::marker::Model;

/// The states of the definitions that some clocks lead to. Where all of these clocks are declared there are none, and
/// the declared ticks of a step are all that is followed of it.
pub(crate) struct States<'s> {
    system: &'s System,
    clocks: ClockSet,
    part: Option<Part<'s>>,
}

// By hand and not derived: to the prover, an early return then drops one by a single call.
impl<'s> Drop for States<'s> {
    fn drop(self) {
        let States {
            system: _,
            clocks: _,
            part: _part,
        } = self;
    }
}

impl<'s> Model for States<'s> {
    ghost use Rattle.std.specs.Coded.{codes};
    ghost use Rattle.ccsl_kernel.specs.Coded.{coded_expression};
    ghost use Rattle.ccsl_state.specs.Part.{HeldPart};

    ghost Value = { HeldPart };

    ghost coded = { Prim.hlevel (codes, coded_expression) };

    ghost use Rattle.ccsl_follow.specs.Following.{held_part, Follows};

    ghost view = { λ s. held_part s.system.now s.clocks s.part };

    ghost invariant = { λ s. Follows s.system.now s.clocks s.part };
}

// Whether each of some clocks is declared.
fn are_declared(system: &System, clocks: &ClockSet) -> bool
    ensures { result ≡ are_below system.now.declared clocks.now }
{
    let declared = system.scope().declared;
    for clock in clocks.members() {
        if clock >= declared {
            return false;
        }
    }
    true
}

// The states before the first step of the definitions that some clocks lead to, where one of these clocks is defined.
fn states_of<'s>(
    alloc: Global,
    system: &'s System,
    clocks: &ClockSet,
) -> Result<Option<Part<'s>>, Memory>
    ensures follows { IfOk result (λ part. Follows system.now clocks.now part) }
    ensures has { IfOk result (λ part. (x : ℕ) →
        ticks_in x clocks.now ≡ true →
        ticks_in x (held_part system.now clocks.now part).followed ≡ true) }
    ensures stands { IfOk result (λ part. PartStandsFor (held_part system.now clocks.now part) []) }
{
    if are_declared(system, clocks) {
        return Ok(None);
    }
    let part = Part::open(alloc, system, clocks)?;
    Ok(Some(part))
}

impl<'s> States<'s> {
    /// The states before the first step.
    pub(crate) fn open(
        alloc: Global,
        system: &'s System,
        clocks: &ClockSet,
    ) -> Result<States<'s>, Memory>
        ensures system { IfOk result (λ s. s.system ≡ system.now) }
        ensures has { IfOk result (λ s. (x : ℕ) →
            ticks_in x clocks.now ≡ true → ticks_in x s.followed ≡ true) }
        ensures stands { IfOk result (λ s. PartStandsFor s []) }
    {
        let part = states_of(alloc, system, clocks)?;
        Ok(States {
            system,
            clocks: clocks.copy(),
            part,
        })
    }

    /// Goes on by the full step that the declared clocks of a set give. Then the set has what of that step is declared
    /// or followed.
    #[inline(always)]
    pub(crate) fn go_on(&mut self, step: &mut ClockSet)
        requires { are_below self.old.system.declared step.old ≡ true }
        ensures system { self.new.system ≡ self.old.system }
        ensures followed { self.new.followed ≡ self.old.followed }
        ensures step { (T : List Step) → PartStandsFor self.old T →
            step.new ≡ part_of self.old (full_step self.old.system T step.old) }
        ensures stands { (T : List Step) → PartStandsFor self.old T → length T + 1 < 2 ^ 64 →
            PartStandsFor self.new (T ++ full_step self.old.system T step.old ∷ []) }
    {
        match &mut self.part {
            Some(part) => part.go_on(step),
            None => {}
        }
    }

    /// Whether nothing is defined: each clock that has a name is declared. Then a row is a step.
    pub(crate) fn are_rows(&self) -> bool
        ensures { result ≡ true → AreRows self.now }
    {
        match &self.part {
            Some(_) => false,
            None => {
                let scope = self.system.scope();
                scope.named <= scope.declared
            }
        }
    }

    /// The clocks that are followed.
    pub(crate) fn followed(&self) -> &ClockSet
        ensures { result.now ≡ self.now.followed }
    {
        match &self.part {
            Some(part) => part.followed(),
            None => &self.clocks,
        }
    }
}
