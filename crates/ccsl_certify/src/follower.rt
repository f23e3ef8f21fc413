//! What follows the rows of a trace.

ghost use Rattle.std.specs.Prelude.{◌≡◌, ◌<◌, ◌+◌, ◌^◌, ℕ, List, [], ◌∷◌, ◌++◌, length, IfOk};
ghost use Rattle.ccsl_base.specs.declared.rows.Row.{Row};
ghost use Rattle.ccsl_kernel.specs.Syntax.{System};
ghost use Rattle.ccsl_state.specs.Held as states;
ghost use Rattle.ccsl_certify.specs.Replaying.{AreAfter, Follows, Answers};

use crate::answer::Replayed;
use crate::both::both;
use ccsl_base::{Block, ClockSet, Memory, Row};
use ccsl_kernel::System;
use ccsl_relate::Monitor;
use ccsl_state::States;
use std::alloc::Global;

/// The monitor of all items, and the states after the rows that it has taken.
#[derive(Drop)]
pub(crate) struct Follower<'s> {
    system: &'s System,
    pub(crate) monitor: Monitor<'s>,
    pub(crate) states: States<'s>,
}

impl<'s> Follower<'s> {
    pub(crate) fn open(
        alloc: Global,
        system: &'s System,
        bound: &ClockSet,
    ) -> Result<Follower<'s>, Memory>
        ensures { IfOk result (λ f. Follows system.now bound.now [] f) }
    {
        let monitor = Monitor::open(alloc, system, 0, system.items(), bound)?;
        let (monitor, states) = both(monitor, States::open(alloc, system))?;
        Ok(Follower {
            system,
            monitor,
            states,
        })
    }

    // The states go on by a row.
    fn advance(&mut self, row: &Row)
        ensures system { self.new.system ≡ self.old.system }
        ensures monitor { self.new.monitor ≡ self.old.monitor }
        ensures after { (rows : List Row) → AreAfter self.old.system.now rows self.old.states →
            length rows + 1 < 2 ^ 64 →
            AreAfter self.old.system.now (rows ++ row.now ∷ []) self.new.states }
    {
        let declared = row.ticks.below(self.system.scope().declared);
        self.states.advance(&declared);
    }

    // The states go on by the rows of a block.
    fn advance_all(&mut self, block: &Block)
        ensures system { self.new.system ≡ self.old.system }
        ensures monitor { self.new.monitor ≡ self.old.monitor }
        ensures after { (rows : List Row) → AreAfter self.old.system.now rows self.old.states →
            length rows + length block.now.rows < 2 ^ 64 →
            AreAfter self.old.system.now (rows ++ block.now.rows) self.new.states }
    {
        for i in 0..block.len() {
            self.advance(block.row(i));
        }
    }

    /// Takes the rows of a block as the next ones.
    pub(crate) fn take(&mut self, block: &Block)
        requires { (K : System) × (bound : List ℕ) × (rows : List Row)
            × Follows K bound rows self.old
            × (length rows + length block.now.rows < 2 ^ 64) }
        ensures { (K : System) (bound : List ℕ) (rows : List Row) → Follows K bound rows self.old →
            length rows + length block.now.rows < 2 ^ 64 →
            Follows K bound (rows ++ block.now.rows) self.new }
    {
        self.monitor.check_block(block);
        self.advance_all(block);
    }

    /// The answer on the rows that it has taken.
    pub(crate) fn answer(self, count: u64) -> Replayed<'s>
        ensures { (K : System) (bound : List ℕ) (rows : List Row) →
            Follows K bound rows self.entry → count ≡ length rows →
            Answers K bound rows result }
    {
        match self.monitor.first() {
            Some(violation) => Replayed::NotRun(violation),
            None => Replayed::Run {
                steps: count,
                states: self.states,
            },
        }
    }
}
