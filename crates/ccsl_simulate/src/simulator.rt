//! One simulation, turn by turn.

ghost use Rattle.std.specs.Prelude.{◌≡◌, ◌+◌, ◌*◌, ◌<◌, ◌^◌, ℕ, List, [], ◌∷◌, ◌++◌, suc, true, All, IsTrue, IfOk, IfErr, OnOk, length};
ghost use Rattle.ccsl_base.specs.Clocks.{is_ascending};
ghost use Rattle.ccsl_edge.specs.declared.slot.Slot.TheVariants.{TraceOut, CertOut};
ghost use Rattle.ccsl_edge.specs.Calls.{Adds};
ghost use Rattle.ccsl_kernel.specs.Lives.{Step};
ghost use Rattle.ccsl_kernel.specs.Runs.{full_step};
ghost use Rattle.ccsl_state.specs.Held as states;
ghost use Rattle.ccsl_vcd_write.specs.Text.{header_text, step_text};
ghost use Rattle.ccsl_refute.specs.Below.{AreBelow};
ghost use Rattle.ccsl_refute.specs.Writing.{lines_text};
ghost use Rattle.ccsl_refute.specs.LineLiterals.{literals};
ghost use Rattle.ccsl_items.specs.Formulas.{item_formulas, scope_of};
ghost use Rattle.ccsl_policy.specs.Chosen.{Chooses};
ghost use Rattle.ccsl_policy.specs.Generator as generator;
ghost use Rattle.ccsl_simulate.specs.declared.simulator.Turn.TheVariants as turns;
ghost use Rattle.ccsl_simulate.specs.Simulation.{words_of_step};
ghost use Rattle.ccsl_simulate.specs.Going.{run_of, Stands, SameTask, WriteFails, TurnDoes, TurnFails};

use ccsl_base::{ClockSet, Memory, Seq};
use ccsl_edge::{Slot, Stop, World, write_all};
use ccsl_formula::Formula;
use ccsl_items::put_formulas;
use ccsl_kernel::System;
use ccsl_policy::{Choice, Draw, Policy, choose};
use ccsl_refute::{Line, write};
use ccsl_state::States;
use ccsl_vcd_write::{header, step};
use std::alloc::Global;

/// How a turn ended.
#[derive(Clone, Copy)]
pub(crate) enum Turn {
    /// A step was added.
    Goes,
    /// No step is left.
    Ends,
}

/// A simulation after some steps. The formulas and the text of a step are put where those of the step before were.
#[derive(Drop)]
pub(crate) struct Simulator<'s> {
    alloc: Global,
    system: &'s System,
    policy: Policy,
    states: States<'s>,
    draw: Draw,
    formulas: Vec<Formula>,
    pub(crate) text: Vec<u8>,
}

impl<'s> Simulator<'s> {
    /// Before the first step, with the header of the trace as its text.
    pub(crate) fn open(
        alloc: Global,
        system: &'s System,
        policy: Policy,
        seed: u64,
    ) -> Result<Simulator<'s>, Memory>
        ensures system { IfOk result (λ sim. sim.system.now ≡ system.now) }
        ensures policy { IfOk result (λ sim. sim.policy ≡ policy) }
        ensures text { IfOk result (λ sim. sim.text.items ≡ header_text system.now) }
        ensures stands { IfOk result (λ sim. Stands seed 0 sim) }
    {
        let text = header(alloc, system)?;
        let states = States::open(alloc, system)?;
        system.is_accepted();
        Ok(Simulator {
            alloc,
            system,
            policy,
            states,
            draw: Draw::new(seed),
            formulas: Vec::new(alloc),
            text,
        })
    }

    // The choice of the next step, by the next words.
    fn choice(&mut self) -> Result<Choice, Memory>
        requires system { self.old.states.system ≡ self.old.system.now }
        requires draw { (seed : ℕ) × (j : ℕ) × generator.StandsFor self.old.draw seed j }
        ensures task { SameTask self.old self.new }
        ensures states { self.new.states ≡ self.old.states }
        ensures draw { OnOk result ((seed j : ℕ) → generator.StandsFor self.old.draw seed j →
            generator.StandsFor self.new.draw seed (j + self.old.system.now.declared)) }
        ensures choice { IfOk result (λ choice. (T : List Step) (seed n : ℕ) →
            states.StandsFor self.old.states T →
            generator.StandsFor self.old.draw seed (n * self.old.system.now.declared) →
            Chooses (scope_of self.old.system.now)
            (item_formulas self.old.system.now T) self.old.policy
            (words_of_step self.old.system.now seed n) choice) }
    {
        let scope = self.system.scope();
        let words = self.draw.next(self.alloc, scope.declared)?;
        put_formulas(self.alloc, self.system, &self.states, &mut self.formulas)?;
        choose(self.alloc, &self.formulas, &scope, self.policy, &words)
    }

    // Goes on by a set, and writes it as step number `n`.
    fn write_step<W: World>(&mut self, world: &mut W, n: u64, set: &ClockSet) -> Result<Turn, Stop>
        requires { IsTrue ((W.state world.old).slot_of TraceOut).is_open }
        ensures set { IsTrue (is_ascending set.now) }
        ensures task { SameTask self.old self.new }
        ensures draw { self.new.draw ≡ self.old.draw }
        ensures system { self.new.states.system ≡ self.old.states.system }
        ensures stands { (T : List Step) →
            states.StandsFor self.old.states T → length T + 1 < 2 ^ 64 →
            states.StandsFor self.new.states
            (T ++ full_step self.old.states.system T set.now ∷ []) }
        ensures goes { IfOk result (λ turn. turn ≡ turns.Goes) }
        ensures writes { OnOk result (Adds W.told TraceOut (step_text n self.old.system.now set.now)
            (W.state world.old) (W.state world.new)) }
        ensures fails { IfErr result (λ fault.
            WriteFails W.told TraceOut (step_text n self.old.system.now set.now)
            (W.state world.old) (W.state world.new) fault) }
    {
        set.ascends();
        self.states.advance(set);
        self.text.clear();
        step(n, set, self.system, &mut self.text)?;
        write_all(world, Slot::TraceOut, &self.text)?;
        Ok(Turn::Goes)
    }

    // Writes the lines that show that no step is left.
    fn write_lines<W: World>(&self, world: &mut W, lines: &Seq<Line>) -> Result<Turn, Stop>
        requires opened { IsTrue ((W.state world.old).slot_of CertOut).is_open }
        requires below { All
            (λ line. AreBelow (length self.now.system.now.names) (literals line)) lines.now }
        ensures ends { IfOk result (λ turn. turn ≡ turns.Ends) }
        ensures writes { OnOk result
            (Adds W.told CertOut (lines_text self.now.system.now.names lines.now)
            (W.state world.old) (W.state world.new)) }
        ensures fails { IfErr result (λ fault.
            WriteFails W.told CertOut (lines_text self.now.system.now.names lines.now)
            (W.state world.old) (W.state world.new) fault) }
    {
        let text = write(self.alloc, lines.members(), self.system.names())?;
        write_all(world, Slot::CertOut, &text)?;
        Ok(Turn::Ends)
    }

    /// Adds step number `n` and writes it, or writes that there is none.
    pub(crate) fn turn<W: World>(&mut self, world: &mut W, n: u64) -> Result<Turn, Stop>
        requires trace { IsTrue ((W.state world.old).slot_of TraceOut).is_open }
        requires cert { IsTrue ((W.state world.old).slot_of CertOut).is_open }
        requires few { n + 1 < 2 ^ 64 }
        requires stands { (seed : ℕ) × Stands seed n self.old }
        ensures task { SameTask self.old self.new }
        ensures stands { IfOk result (λ turn. (seed : ℕ) →
            turn ≡ turns.Goes → Stands seed n self.old →
            Stands seed (suc n) self.new) }
        ensures does { IfOk result (λ turn. (seed : ℕ) → Stands seed n self.old →
            TurnDoes W.told self.old.system.now self.old.policy seed n (W.state world.old)
            (W.state world.new) turn) }
        ensures fails { IfErr result (λ fault. (seed : ℕ) → Stands seed n self.old →
            TurnFails W.told self.old.system.now self.old.policy seed n (W.state world.old)
            (W.state world.new) fault) }
    {
        match self.choice()? {
            Choice::Step(set) => self.write_step(world, n, &set),
            Choice::Deadlock(lines) => self.write_lines(world, &lines),
        }
    }
}
