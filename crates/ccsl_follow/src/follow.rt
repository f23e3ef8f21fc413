//! What is followed of a trace: the full steps, the counts, the leads, and the last steps.

ghost use Rattle.std.specs.Prelude.{◌≡◌, ◌<◌, ◌+◌, ◌-◌, ◌^◌, ℕ, List, [], ◌∷◌, ◌++◌, Some, true, false, is_some, min, nat_le, length, replicate, IfOk, OnOk};
ghost use Rattle.std.specs.Prelude.{slice_index_or};
ghost use Rattle.ccsl_base.specs.Clocks.{ticks_in};
ghost use Rattle.ccsl_base.specs.declared.rows.Row.{Row};
ghost use Rattle.ccsl_causes.specs.Counted.{counted};
ghost use Rattle.ccsl_edge.specs.declared.slot.Slot.TheVariants.{Trace};
ghost use Rattle.ccsl_edge.specs.Counts.{SameCounts};
ghost use Rattle.ccsl_follow.specs.Leaving.{is_left_at};
ghost use Rattle.ccsl_follow.specs.Pending.{AreLeads};
ghost use Rattle.ccsl_follow.specs.Counting.{HasCounted};
ghost use Rattle.ccsl_follow.specs.LastSteps.{kept_with};
ghost use Rattle.ccsl_follow.specs.OnlyReads.{OnlyReads};

use crate::counting::{count_rows, count_step};
use crate::feeding::{next_rows, open_feed};
use crate::reading::open_file;
use crate::steps::Steps;
use crate::stop::Stop;
use crate::until::{KEPT, Until};
use crate::window::{copy_of, last_of};
use ccsl_base::{Block, ClockSet, HashKeys, Memory, Row};
use ccsl_causes::{Counts, Leads};
use ccsl_edge::{Slot, World};
use ccsl_kernel::System;
use ccsl_page::Column;
use std::alloc::Global;

/// The steps of a trace up to where it is left. No step but the last ones takes memory.
pub struct Follow<'s> {
    alloc: Global,
    steps: Steps<'s>,
    pub counts: Counts,
    /// none where the trace is left at a step, or the system has no precedence between clocks that are written in it
    pub leads: Option<Leads>,
    made: u64,
    until: Until,
    // the first of the last steps, and those of them that were made
    first_kept: u64,
    kept: Vec<Column>,
    /// the step at which the trace is left, once it came; it is not counted
    pub broken: Option<Column>,
}

// By hand and not derived: to the prover, an early return then drops one by a single call.
impl<'s> Drop for Follow<'s> {
    fn drop(self) {
        let Follow {
            alloc: _,
            steps: _steps,
            counts: _counts,
            leads: _leads,
            made: _,
            until: _,
            first_kept: _,
            kept: _kept,
            broken: _broken,
        } = self;
    }
}

// The leads before the first step. What is pending is asked for at the end of a trace alone.
fn leads_of(alloc: Global, system: &System, until: Until) -> Result<Option<Leads>, Memory>
    ensures { IfOk result (AreLeads system.now until) }
{
    match until {
        Until::Step(_) => Ok(None),
        Until::End(_) => Leads::new(alloc, system),
    }
}

impl<'s> Follow<'s> {
    /// Before the first step. Of the defined clocks these are followed, and all that their definitions lead to.
    pub fn open(
        alloc: Global,
        system: &'s System,
        clocks: &ClockSet,
        until: Until,
    ) -> Result<Follow<'s>, Memory>
        ensures counts { IfOk result (λ f. f.counts ≡ replicate (length system.now.names) 0) }
        ensures leads { IfOk result (λ f. AreLeads system.now until f.leads) }
        ensures counted { IfOk result (λ f. HasCounted f.steps.part f.counts []) }
    {
        Ok(Follow {
            alloc,
            steps: Steps::open(alloc, system, clocks)?,
            counts: Counts::new(alloc, system.scope().named)?,
            leads: leads_of(alloc, system, until)?,
            made: 0,
            until,
            first_kept: until.first_kept(),
            kept: Vec::new(alloc),
            broken: None,
        })
    }

    /// The clocks that are followed.
    pub fn followed(&self) -> &ClockSet {
        self.steps.followed()
    }

    /// Whether the trace is left.
    pub fn is_over(&self) -> bool
        ensures { result ≡ is_some self.now.broken }
    {
        self.broken.is_some()
    }

    // The step that was just made.
    fn column(&self, time: u64) -> Column
        ensures { result ≡ record {
          step = self.now.made;
          time = time;
          ticks = self.now.steps.step;
        } }
    {
        Column {
            step: self.made,
            time,
            ticks: self.steps.step().copy(),
        }
    }

    // The step that was just made is kept where it is one of the last ones: no more of them, however long the trace is.
    #[inline]
    fn keep(&mut self, time: u64) -> Result<(), Memory>
        ensures kept { OnOk result (self.new.kept.items
            ≡ kept_with self.old.first_kept self.old.kept.items (record {
              step = self.old.made;
              time = time;
              ticks = self.old.steps.step;
            })) }
        ensures counts { self.new.counts ≡ self.old.counts }
        ensures steps { self.new.steps ≡ self.old.steps }
        ensures made { self.new.made ≡ self.old.made }
        ensures broken { self.new.broken ≡ self.old.broken }
    {
        if self.first_kept <= self.made && (self.kept.len() as u64) < KEPT {
            let column = self.column(time);
            self.kept.push(column)?;
        }
        Ok(())
    }

    // The step that was just made is counted.
    #[inline]
    fn count(&mut self, time: u64)
        ensures counts { (x : ℕ) → x < length self.old.counts →
            slice_index_or self.new.counts x 0 ≡ counted (ticks_in x self.old.steps.step)
            (slice_index_or self.old.counts x 0) }
        ensures clocks { length self.new.counts ≡ length self.old.counts }
        ensures steps { self.new.steps ≡ self.old.steps }
        ensures made { self.new.made ≡ min (self.old.made + 1) (2 ^ 64 - 1) }
        ensures kept { self.new.kept.items ≡ self.old.kept.items }
        ensures broken { self.new.broken ≡ self.old.broken }
    {
        count_step(&mut self.counts, &mut self.leads, self.steps.step(), time);
        self.made = self.made.saturating_add(1);
    }

    // The next row of the trace. Where it is left at that, nothing is counted.
    #[inline]
    fn take(&mut self, row: &Row) -> Result<(), Memory>
        ensures left { OnOk result (is_left_at self.old.until self.old.made ≡ true →
            (self.new.counts ≡ self.old.counts) × (self.new.broken ≡ Some (record {
              step = self.old.made;
              time = row.now.time;
              ticks = self.new.steps.step;
            }))) }
        ensures goes { OnOk result (is_left_at self.old.until self.old.made ≡ false →
            (self.new.made ≡ min (self.old.made + 1) (2 ^ 64 - 1))
            × (self.new.broken ≡ self.old.broken)) }
        ensures counts { OnOk result (is_left_at self.old.until self.old.made ≡ false →
            (x : ℕ) → x < length self.old.counts →
            slice_index_or self.new.counts x 0 ≡ counted (ticks_in x self.new.steps.step)
            (slice_index_or self.old.counts x 0)) }
        ensures kept { OnOk result (is_left_at self.old.until self.old.made ≡ false →
            self.new.kept.items ≡ kept_with self.old.first_kept self.old.kept.items (record {
              step = self.old.made;
              time = row.now.time;
              ticks = self.new.steps.step;
            })) }
        ensures counted { OnOk result (is_left_at self.old.until self.old.made ≡ false →
            (rows : List Row) → HasCounted self.old.steps.part self.old.counts rows →
            length rows + 1 < 2 ^ 64 →
            HasCounted self.new.steps.part self.new.counts (rows ++ row.now ∷ [])) }
    {
        self.steps.go_on(&row.ticks);
        if self.until.is_at(self.made) {
            self.broken = Some(self.column(row.time));
            return Ok(());
        }
        self.keep(row.time)?;
        self.count(row.time);
        Ok(())
    }

    // Whether so many more steps come before the first of the last ones: none is kept, and at none is the trace left.
    fn is_far(&self, rows: usize) -> bool
        ensures { result ≡ nat_le (self.now.made + rows) self.now.first_kept }
    {
        self.made <= self.first_kept && rows as u64 <= self.first_kept - self.made
    }

    // The next row, where its step is not kept.
    #[inline(always)]
    fn count_next(&mut self, row: &Row)
        ensures counted { (rows : List Row) → HasCounted self.old.steps.part self.old.counts rows →
            length rows + 1 < 2 ^ 64 →
            HasCounted self.new.steps.part self.new.counts (rows ++ row.now ∷ []) }
        ensures made { self.new.made ≡ self.old.made }
        ensures broken { self.new.broken ≡ self.old.broken }
    {
        self.steps.go_on(&row.ticks);
        let step = self.steps.step();
        count_step(&mut self.counts, &mut self.leads, step, row.time);
    }

    // The rows of a block, where none of their steps is kept.
    fn count_steps(&mut self, block: &Block)
        ensures counted { (rows : List Row) → HasCounted self.old.steps.part self.old.counts rows →
            length rows + length block.now.rows < 2 ^ 64 →
            HasCounted self.new.steps.part self.new.counts (rows ++ block.now.rows) }
        ensures made { self.new.made ≡ self.old.made }
        ensures broken { self.new.broken ≡ self.old.broken }
    {
        for i in 0..block.len() {
            self.count_next(block.row(i));
        }
    }

    // The rows of a block, where none of their steps is kept. Where a row is a step, no step is made.
    fn count_all(&mut self, block: &Block)
        ensures counted { (rows : List Row) → HasCounted self.old.steps.part self.old.counts rows →
            length rows + length block.now.rows < 2 ^ 64 →
            HasCounted self.new.steps.part self.new.counts (rows ++ block.now.rows) }
        ensures made { self.new.made
            ≡ min (self.old.made + length block.now.rows) (2 ^ 64 - 1) }
        ensures broken { self.new.broken ≡ self.old.broken }
    {
        if self.steps.are_rows() {
            count_rows(&mut self.counts, &mut self.leads, block);
        } else {
            self.count_steps(block);
        }
        self.made = self.made.saturating_add(block.len() as u64);
    }

    /// The rows of a block, up to where the trace is left.
    pub fn take_all(&mut self, block: &Block) -> Result<(), Memory>
        ensures { OnOk result (is_some self.new.broken ≡ false → (rows : List Row) →
            HasCounted self.old.steps.part self.old.counts rows →
            length rows + length block.now.rows < 2 ^ 64 →
            HasCounted self.new.steps.part self.new.counts (rows ++ block.now.rows)) }
    {
        if self.is_far(block.len()) {
            self.count_all(block);
            return Ok(());
        }
        for i in 0..block.len() {
            if self.is_over() {
                return Ok(());
            }
            self.take(block.row(i))?;
        }
        Ok(())
    }

    /// The last steps in which one of some clocks ticks, so many at most, and the step at which the trace was left.
    pub fn window(&self, clocks: &ClockSet, most: usize) -> Result<Vec<Column>, Memory> {
        let mut chosen = last_of(self.alloc, self.kept.as_slice(), clocks, most)?;
        if let Some(column) = &self.broken {
            chosen.push(copy_of(column))?;
        }
        Ok(chosen)
    }
}

/// Follows a trace up to where it is left.
pub fn followed<'s, W: World>(
    alloc: Global,
    keys: HashKeys,
    world: &mut W,
    system: &'s System,
    clocks: &ClockSet,
    name: &str,
    until: Until,
) -> Result<Follow<'s>, Stop>
    requires { W.allows Trace name.now }
    ensures reads { OnlyReads (W.state world.old) (W.state world.new) }
    ensures calm { OnOk result (SameCounts (W.state world.old) (W.state world.new)) }
{
    open_file(world, Slot::Trace, name)?;
    let mut follow = Follow::open(alloc, system, clocks, until)?;
    let mut feed = open_feed(alloc, keys, world, system)?;
    for _ in 0..u64::MAX {
        let more = next_rows(&mut feed, world)?;
        follow.take_all(feed.block())?;
        if !more || follow.is_over() {
            break;
        }
    }
    Ok(follow)
}
