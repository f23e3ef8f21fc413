//! The declared sets of a run, the last one on top, and the states behind them.

ghost use Rattle.std.specs.Prelude.{◌≡◌, ◌+◌, ◌-◌, ◌<◌, ◌≤◌, ◌^◌, List, [], ◌∷◌, ◌++◌, length, map, take, nat_lt, nat_le, IfOk, OnOk};
ghost use Rattle.ccsl_kernel.specs.Lives.{Step};
ghost use Rattle.ccsl_kernel.specs.Runs.{completed_after};
ghost use Rattle.ccsl_state.specs.Held.{StandsFor};
ghost use Rattle.ccsl_session.specs.Stack.{AreBehind, AreCopies, Stands};

use ccsl_base::{ClockSet, MAX_SESSION_STEPS, Memory};
use ccsl_kernel::System;
use ccsl_state::States;
use std::alloc::Global;

/// Behind how many sets the states are copied once more.
const STRIDE: usize = 256;

/// The states behind fewer sets are those of the nearest copy, gone on by fewer than [`STRIDE`] sets.
#[derive(Drop)]
pub(crate) struct Stack<'s> {
    alloc: Global,
    pub(crate) system: &'s System,
    pub(crate) sets: Vec<ClockSet>,
    pub(crate) states: States<'s>,
    copies: Vec<States<'s>>,
}

// The states go on by declared sets.
fn go_on(states: &mut States<'_>, sets: &[ClockSet])
    ensures system { states.new.system ≡ states.old.system }
    ensures stands { (T : List Step) → StandsFor states.old T →
        length T + length sets.now < 2 ^ 64 →
        StandsFor states.new (completed_after states.old.system T sets.now) }
{
    for set in sets {
        states.advance(set);
    }
}

impl<'s> Stack<'s> {
    /// Without a set.
    pub(crate) fn open(alloc: Global, system: &'s System) -> Result<Stack<'s>, Memory>
        ensures system { IfOk result (λ stack. stack.system.now ≡ system.now) }
        ensures sets { IfOk result (λ stack. stack.sets.items ≡ []) }
        ensures stands { IfOk result Stands }
    {
        system.is_accepted();
        let states = States::open(alloc, system)?;
        let mut copies = Vec::new(alloc);
        copies.push(states.copy(alloc)?)?;
        Ok(Stack {
            alloc,
            system,
            sets: Vec::new(alloc),
            states,
            copies,
        })
    }

    /// Whether there are as many sets as there may be.
    pub(crate) fn is_full(&self) -> bool
        ensures { result ≡ nat_le MAX_SESSION_STEPS (length self.now.sets.items) }
    {
        self.sets.len() as u64 >= MAX_SESSION_STEPS
    }

    /// How many sets there are.
    pub(crate) fn len(&self) -> u64
        ensures { result ≡ length self.now.sets.items }
    {
        self.sets.len() as u64
    }

    /// One more set.
    pub(crate) fn push(&mut self, set: ClockSet) -> Result<(), Memory>
        requires stands { Stands self.old }
        requires few { length self.old.sets.items < MAX_SESSION_STEPS }
        ensures system { self.new.system ≡ self.old.system }
        ensures sets { OnOk result (self.new.sets.items ≡ self.old.sets.items ++ set ∷ []) }
        ensures stands { OnOk result (Stands self.new) }
    {
        self.states.advance(&set);
        self.sets.push(set)?;
        if self.sets.len() % STRIDE == 0 {
            self.copies.push(self.states.copy(self.alloc)?)?;
        }
        Ok(())
    }

    // The states behind all sets, by the last copy.
    fn replayed(&self) -> Result<States<'s>, Memory>
        requires copies { AreCopies self.now.system.now self.now.sets.items self.now.copies.items }
        requires few { length self.now.sets.items ≤ MAX_SESSION_STEPS }
        ensures { IfOk result (AreBehind self.now.system.now self.now.sets.items) }
    {
        let last = self.copies.len() - 1;
        let mut states = self.copies[last].copy(self.alloc)?;
        go_on(&mut states, &self.sets[last * STRIDE..]);
        Ok(states)
    }

    /// Takes the last set away, and tells whether there was one.
    pub(crate) fn pop(&mut self) -> Result<bool, Memory>
        requires { Stands self.old }
        ensures system { self.new.system ≡ self.old.system }
        ensures found { IfOk result (λ found. found ≡ nat_lt 0 (length self.old.sets.items)) }
        ensures sets { OnOk result (self.new.sets.items
            ≡ take (length self.old.sets.items - 1) self.old.sets.items) }
        ensures stands { OnOk result (Stands self.new) }
    {
        if self.sets.pop().is_none() {
            return Ok(false);
        }
        self.copies.truncate(self.sets.len() / STRIDE + 1);
        self.states = self.replayed()?;
        Ok(true)
    }
}
