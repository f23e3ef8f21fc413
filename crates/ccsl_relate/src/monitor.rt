//! Monitors of neighbouring items.

ghost use Rattle.std.specs.Prelude.{◌≡◌, ℕ, ◌+◌, ◌-◌, ◌<◌, ◌≤◌, ◌^◌, List, [], ◌∷◌, ◌++◌, length, None, IfOk, IsSome};
ghost use Rattle.ccsl_base.specs.declared.rows.Row.{Row};
ghost use Rattle.ccsl_kernel.specs.Syntax.{item_count};
ghost use Rattle.ccsl_relate.specs.Violations.{Finds};
ghost use Rattle.ccsl_relate.specs.Watching.{StandsFor};
ghost use Rattle.ccsl_relate.specs.Taking.{MayTake, Takes};
ghost use Rattle.ccsl_relate.specs.Following.{FollowsNoMore};
ghost use Rattle.ccsl_relate.specs.declared.monitor.TheConstants.{PART_ROWS};

use crate::readers::Readers;
use crate::states::states_for;
use crate::steps::{complete, first_violated, rows_are_sets, undeclared};
use crate::stretch::first_violation;
use crate::violation::Violation;
use crate::watched::{Watched, open_all};
use ccsl_base::{Block, ClockSet, Memory, Row, blank_rows};
use ccsl_kernel::System;
use ccsl_state::Part;
use std::alloc::Global;
use std::marker::Model;

/// So many rows are taken item by item at one time, where their steps have to be found.
pub(crate) const PART_ROWS: usize = 64;

/// Follows some neighbouring items of a system over the rows of a trace, up to the first row that violates one of them.
/// The states of the definitions that its items reach go on once a row, and no others: a definition whose clock was not
/// recorded and a constraint between declared clocks touch no cell.
pub struct Monitor<'s> {
    system: &'s System,
    start: u32,
    // all clocks that the system does not declare
    undeclared: ClockSet,
    kept: Vec<Watched>,
    // which of them read a clock
    readers: Option<Readers>,
    states: Option<Part<'s>>,
    // room for a step, and for those of so many rows, whose times count for nothing
    step: ClockSet,
    completed: Vec<Row>,
    steps: u64,
    first: Option<Violation>,
}

// By hand and not derived: to the prover, an early return then drops one by a single call.
impl<'s> Drop for Monitor<'s> {
    fn drop(self) {
        let Monitor {
            system: _,
            start: _,
            undeclared: _,
            kept: _kept,
            readers: _readers,
            states: _states,
            step: _step,
            completed: _completed,
            steps: _,
            first: _,
        } = self;
    }
}

impl<'s> Model for Monitor<'s> {
    ghost use Rattle.std.specs.Coded.{codes};
    ghost use Rattle.ccsl_kernel.specs.Coded.{coded_expression};
    ghost use Rattle.ccsl_relate.specs.Watching.{Watching};

    ghost Value = { Watching };

    ghost coded = { Prim.hlevel (codes, coded_expression) };

    ghost use Rattle.std.specs.Prelude.{◌≡◌, vec_len};
    ghost use Rattle.ccsl_relate.specs.Watching.{IsUndeclared};
    ghost use Rattle.ccsl_relate.specs.Reading.{Fit};
    ghost use Rattle.ccsl_relate.specs.declared.monitor.TheConstants.{PART_ROWS};

    ghost view = { λ m. record {
      system = m.system.now;
      start = m.start;
      kept = m.kept.items;
      states = m.states;
      steps = m.steps;
      first = m.first;
    } };

    ghost invariant = { λ m. IsUndeclared m.system.now m.undeclared × Fit m.readers m.kept.items
        × (vec_len m.completed ≡ PART_ROWS) };
}

impl<'s> Monitor<'s> {
    /// Follows `count` items from number `start` on, where these clocks are bound. It takes the states of the
    /// definitions that the items reach, where one of them reads a defined clock, and room for the steps of
    /// [`PART_ROWS`] rows.
    pub fn open(
        alloc: Global,
        system: &'s System,
        start: u32,
        count: u32,
        recorded: &ClockSet,
    ) -> Result<Monitor<'s>, Memory>
        requires { start + count ≤ item_count system.now }
        ensures system { IfOk result (λ m. m.system ≡ system.now) }
        ensures start { IfOk result (λ m. m.start ≡ start) }
        ensures count { IfOk result (λ m. length m.kept ≡ count) }
        ensures stands { IfOk result (λ m. StandsFor recorded.now m []) }
        ensures follows { IfOk result (λ m. FollowsNoMore m.system m.states m.kept) }
    {
        let kept = open_all(alloc, system, start, count, recorded)?;
        let readers = Readers::open(alloc, kept.as_slice())?;
        let completed = blank_rows(alloc, PART_ROWS)?;
        system.is_accepted();
        let states = states_for(alloc, system, kept.as_slice())?;
        Ok(Monitor {
            system,
            start,
            undeclared: undeclared(system),
            kept,
            readers,
            states,
            step: ClockSet::empty(),
            completed,
            steps: 0,
            first: None,
        })
    }

    // The first violation, with this row taken too, which is not counted yet.
    #[inline(always)]
    fn first_with(&mut self, row: &Row) -> Option<Violation>
        requires { MayTake self.old 1 }
        ensures steps { self.new.steps ≡ self.old.steps }
        ensures takes { Takes self.old
            (record self.new { steps = self.new.steps + 1; first = result }) (row.now ∷ []) }
    {
        row.ticks.ascends();
        if self.first.is_some() {
            return self.first;
        }
        let kept = self.kept.as_mut_slice();
        let place = first_violated(
            &mut self.states,
            &self.undeclared,
            kept,
            &self.readers,
            &row.ticks,
            &mut self.step,
        )?;
        Some(Violation {
            step: self.steps,
            time: row.time,
            item: self.start + place,
        })
    }

    // The next row.
    #[inline(always)]
    fn check_row(&mut self, row: &Row)
        requires { MayTake self.old 1 }
        ensures { Takes self.old self.new (row.now ∷ []) }
    {
        let found = self.first_with(row);
        self.first = found;
        self.steps += 1;
    }

    // Takes rows as the next ones behind a violation: they change no answer.
    fn rest(&mut self, rows: &[Row])
        requires violated { IsSome self.old.first }
        requires few { MayTake self.old (length rows.now) }
        ensures { Takes self.old self.new rows.now }
    {
        rows_are_sets(rows);
        self.steps += rows.len() as u64;
    }

    // Takes rows as the next ones, item by item: they are steps by themselves.
    fn check_items(&mut self, rows: &[Row])
        requires none { self.old.first ≡ None }
        requires stateless { self.old.states ≡ None }
        requires few { MayTake self.old (length rows.now) }
        ensures { Takes self.old self.new rows.now }
    {
        rows_are_sets(rows);
        let kept = self.kept.as_mut_slice();
        let first = first_violation(kept, rows, rows, self.steps, self.start);
        self.first = first;
        self.steps += rows.len() as u64;
    }

    // Takes at most [`PART_ROWS`] rows as the next ones, item by item, once the steps that they complete are found.
    fn check_part(&mut self, rows: &[Row])
        requires part { length rows.now ≤ PART_ROWS }
        requires none { self.old.first ≡ None }
        requires states { IsSome self.old.states }
        requires few { MayTake self.old (length rows.now) }
        ensures states { IsSome self.new.states }
        ensures takes { Takes self.old self.new rows.now }
    {
        rows_are_sets(rows);
        let Some(states) = &mut self.states else {
            unreachable!();
        };
        let completed = self.completed.as_mut_slice();
        complete(states, &self.undeclared, rows, completed);
        let steps = &self.completed.as_slice()[..rows.len()];
        let kept = self.kept.as_mut_slice();
        let first = first_violation(kept, rows, steps, self.steps, self.start);
        self.first = first;
        self.steps += rows.len() as u64;
    }

    // Takes rows as the next ones, part by part.
    fn check_parts(&mut self, rows: &[Row])
        requires states { IsSome self.old.states }
        requires few { MayTake self.old (length rows.now) }
        ensures { Takes self.old self.new rows.now }
    {
        let mut from = 0;
        'parts: while from < rows.len() {
            if self.first().is_some() {
                self.rest(&rows[from..]);
                return;
            }
            let count = (rows.len() - from).min(PART_ROWS);
            self.check_part(&rows[from..from + count]);
            from += count;
        }
    }

    // Takes rows as the next ones, row by row.
    fn check_each(&mut self, rows: &[Row])
        requires { MayTake self.old (length rows.now) }
        ensures { Takes self.old self.new rows.now }
    {
        for i in 0..rows.len() {
            self.check_row(&rows[i]);
        }
    }

    // Takes rows as the next ones.
    fn check_rows(&mut self, rows: &[Row])
        requires { MayTake self.old (length rows.now) }
        ensures { Takes self.old self.new rows.now }
    {
        match (self.first, &self.readers, &self.states) {
            (Some(_), _, _) => self.rest(rows),
            (None, None, None) => self.check_items(rows),
            (None, None, Some(_)) => self.check_parts(rows),
            (None, Some(_), _) => self.check_each(rows),
        }
    }

    /// Takes the rows of a block as the next ones. It takes no memory.
    pub fn check_block(&mut self, block: &Block)
        requires { (recorded : List ℕ) × (rows : List Row) × StandsFor recorded self.old rows
            × (length rows + length block.now.rows < 2 ^ 64) }
        ensures system { self.new.system ≡ self.old.system }
        ensures start { self.new.start ≡ self.old.start }
        ensures count { length self.new.kept ≡ length self.old.kept }
        ensures stands { (recorded : List ℕ) (rows : List Row) → StandsFor recorded self.old rows →
            length rows + length block.now.rows < 2 ^ 64 →
            StandsFor recorded self.new (rows ++ block.now.rows) }
    {
        self.check_rows(block.rows());
    }

    /// The first row so far at which one of the items is violated, and the first item that is violated there.
    pub fn first(&self) -> Option<Violation>
        ensures kept { result ≡ self.now.first }
        ensures first { (recorded : List ℕ) (rows : List Row) → StandsFor recorded self.now rows →
            Finds self.now.system recorded rows self.now.start (length self.now.kept) result }
    {
        self.first
    }
}
