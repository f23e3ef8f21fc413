//! A session over its stack, answer by answer.

ghost use Rattle.std.specs.Prelude.{◌≡◌, ◌++◌, [], List, length, IfOk, OnOk, codes, decimal};
ghost use Rattle.ccsl_kernel.specs.Runs.{completed};
ghost use Rattle.ccsl_items.specs.Formulas.{item_formulas, scope_of};
ghost use Rattle.ccsl_policy.specs.Chosen.{Chooses};
ghost use Rattle.ccsl_simulate.specs.Simulation.{words_of_step};
ghost use Rattle.ccsl_session.specs.Asked as asks;
ghost use Rattle.ccsl_session.specs.Reading.{plain};
ghost use Rattle.ccsl_session.specs.Answers.{answer_line, ok_text, next_set};
ghost use Rattle.ccsl_session.specs.Laws.{IsStack};
ghost use Rattle.ccsl_session.specs.Stack.{Stands};
ghost use Rattle.ccsl_session.specs.Answering.{system_of, sets_of, SameTask, Answers};

use crate::asked::Asked;
use crate::stack::Stack;
use crate::text::{put_allowed, put_line, put_numbered, put_step};
use crate::trace::trace;
use ccsl_base::{ClockSet, Memory};
use ccsl_formula::Formula;
use ccsl_items::put_formulas;
use ccsl_kernel::System;
use ccsl_policy::{Choice, Draw, Policy, choose};
use ccsl_possible::{allowed, first_failing};
use std::alloc::Global;

/// A session after some lines. The formulas of a step and the text of an answer are put where those before them were.
#[derive(Drop)]
pub(crate) struct Session<'s> {
    alloc: Global,
    pub(crate) policy: Policy,
    pub(crate) seed: u64,
    pub(crate) stack: Stack<'s>,
    formulas: Vec<Formula>,
    pub(crate) text: Vec<u8>,
}

impl<'s> Session<'s> {
    /// Before the first line.
    pub(crate) fn open(
        alloc: Global,
        system: &'s System,
        policy: Policy,
        seed: u64,
    ) -> Result<Session<'s>, Memory>
        ensures system { IfOk result (λ session. system_of session ≡ system.now) }
        ensures policy { IfOk result (λ session. session.policy ≡ policy) }
        ensures seed { IfOk result (λ session. session.seed ≡ seed) }
        ensures sets { IfOk result (λ session. sets_of session ≡ []) }
        ensures stands { IfOk result (λ session. Stands session.stack) }
    {
        Ok(Session {
            alloc,
            policy,
            seed,
            stack: Stack::open(alloc, system)?,
            formulas: Vec::new(alloc),
            text: Vec::new(alloc),
        })
    }

    // The choice of the next step, by the words of its number.
    fn choice(&mut self) -> Result<Choice, Memory>
        requires { Stands self.old.stack }
        ensures same { self.new ≡ record self.old { formulas = self.new.formulas } }
        ensures choice { IfOk result (λ choice.
            let run = completed (system_of self.old) (sets_of self.old) in
            Chooses (scope_of (system_of self.old))
            (item_formulas (system_of self.old) run) self.old.policy
            (words_of_step (system_of self.old) self.old.seed (length run)) choice) }
    {
        let scope = self.stack.system.scope();
        let mut draw = Draw::at(self.seed, self.stack.len() * u64::from(scope.declared));
        let words = draw.next(self.alloc, scope.declared)?;
        put_formulas(
            self.alloc,
            self.stack.system,
            &self.stack.states,
            &mut self.formulas,
        )?;
        choose(self.alloc, &self.formulas, &scope, self.policy, &words)
    }

    // The set of declared clocks that is chosen for the next step.
    fn next_set(&mut self) -> Result<Option<ClockSet>, Memory>
        requires stands { Stands self.old.stack }
        requires stack { IsStack (system_of self.old) (sets_of self.old) }
        ensures same { self.new ≡ record self.old { formulas = self.new.formulas } }
        ensures next { IfOk result (λ set.
            set ≡ next_set (system_of self.old) self.old.policy self.old.seed (sets_of self.old)) }
    {
        let declared = self.stack.system.scope().declared;
        match self.choice()? {
            Choice::Step(set) => Ok(Some(set.below(declared))),
            Choice::Deadlock(_lines) => Ok(None),
        }
    }

    fn say(&mut self, line: &[u8]) -> Result<(), Memory>
        ensures same { self.new ≡ record self.old { text = self.new.text } }
        ensures text { OnOk result (self.new.text.items ≡ answer_line line.now) }
    {
        self.text.clear();
        put_line(line, &mut self.text)
    }

    fn say_number(&mut self, word: &[u8], number: u64) -> Result<(), Memory>
        ensures same { self.new ≡ record self.old { text = self.new.text } }
        ensures text { OnOk result (self.new.text.items
            ≡ answer_line (word.now ++ decimal number)) }
    {
        self.text.clear();
        put_numbered(word, number, &mut self.text)
    }

    // How many sets there are now.
    fn say_count(&mut self) -> Result<(), Memory>
        ensures same { self.new ≡ record self.old { text = self.new.text } }
        ensures text { OnOk result (self.new.text.items ≡ ok_text (length (sets_of self.old))) }
    {
        let count = self.stack.len();
        self.say_number(b"ok ", count)
    }

    // Pushes a set, unless a constraint fails.
    fn fire(&mut self, set: ClockSet) -> Result<(), Memory>
        requires { Stands self.old.stack }
        ensures task { SameTask self.old self.new }
        ensures answers { OnOk result (Answers (asks.Fire set) self.old self.new) }
    {
        if self.stack.is_full() {
            return self.say(b"full");
        }
        match first_failing(self.alloc, self.stack.system, &self.stack.states, &set)? {
            Some(constraint) => self.say_number(b"no ", u64::from(constraint)),
            None => {
                self.stack.push(set)?;
                self.say_count()
            }
        }
    }

    // Pushes the set that the policy chooses.
    fn step(&mut self) -> Result<(), Memory>
        requires stands { Stands self.old.stack }
        requires stack { IsStack (system_of self.old) (sets_of self.old) }
        ensures task { SameTask self.old self.new }
        ensures answers { OnOk result (Answers asks.Next self.old self.new) }
    {
        if self.stack.is_full() {
            return self.say(b"full");
        }
        match self.next_set()? {
            Some(set) => {
                self.text.clear();
                put_step(
                    self.stack.len() + 1,
                    &set,
                    self.stack.system,
                    &mut self.text,
                )?;
                self.stack.push(set)
            }
            None => self.say(b"blocked"),
        }
    }

    fn back(&mut self) -> Result<(), Memory>
        requires { Stands self.old.stack }
        ensures task { SameTask self.old self.new }
        ensures answers { OnOk result (Answers asks.Back self.old self.new) }
    {
        if self.stack.pop()? {
            self.say_count()
        } else {
            self.say(b"empty")
        }
    }

    fn allowed(&mut self) -> Result<(), Memory>
        requires stands { Stands self.old.stack }
        requires stack { IsStack (system_of self.old) (sets_of self.old) }
        ensures task { SameTask self.old self.new }
        ensures answers { OnOk result (Answers asks.Allowed self.old self.new) }
    {
        let set = allowed(self.alloc, self.stack.system, &self.stack.states)?;
        self.text.clear();
        put_allowed(&set, self.stack.system, &mut self.text)
    }

    fn trace(&mut self) -> Result<(), Memory>
        requires { Stands self.old.stack }
        ensures task { SameTask self.old self.new }
        ensures answers { OnOk result (Answers asks.Trace self.old self.new) }
    {
        self.text = trace(self.alloc, self.stack.system, &self.stack.sets)?;
        put_line(b"end", &mut self.text)
    }

    fn nothing(&mut self)
        requires { Stands self.old.stack }
        ensures task { SameTask self.old self.new }
        ensures answers { Answers asks.Nothing self.old self.new }
    {
        self.text.clear();
    }

    /// Makes the text that of the answer, and goes on.
    pub(crate) fn answer(&mut self, asked: Asked) -> Result<(), Memory>
        requires stands { Stands self.old.stack }
        requires stack { IsStack (system_of self.old) (sets_of self.old) }
        ensures task { SameTask self.old self.new }
        ensures answers { OnOk result (Answers (plain asked) self.old self.new) }
    {
        match asked {
            Asked::Nothing => {
                self.nothing();
                Ok(())
            }
            Asked::Fire(set) => self.fire(set),
            Asked::Next => self.step(),
            Asked::Back => self.back(),
            Asked::Allowed => self.allowed(),
            Asked::Trace => self.trace(),
            Asked::Quit => self.say(b"bye"),
            Asked::Long => self.say(b"long"),
            Asked::Unknown => self.say(b"unknown"),
        }
    }
}
