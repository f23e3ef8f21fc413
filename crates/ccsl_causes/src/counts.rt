//! How often each clock has ticked.

ghost use Rattle.std.specs.Prelude.{◌≡◌, ◌<◌, ℕ, IfOk, length, map, replicate, slice_index_or};
ghost use Rattle.ccsl_base.specs.Clocks.{ticks_in};
ghost use Rattle.ccsl_causes.specs.Counted.{counted, counted_over};

use ccsl_base::{Block, ClockSet, Memory};
use std::alloc::Global;
use std::marker::Model;

/// Where there are no more clocks than so many, a step visits all counts, which costs less than to find those that it
/// raises.
const FEW: usize = 8;

/// A count of ticks for each clock. Contracts see the list of counts.
#[derive(Drop)]
pub struct Counts {
    ticks: Vec<u64>,
}

impl Model for Counts {
    ghost use Rattle.std.specs.Prelude.{List, ℕ, ◌<◌, ◌^◌, length};

    ghost Value = { List ℕ };

    ghost view = { λ c. c.ticks.items };

    ghost invariant = { λ c. length c.ticks.items < 2 ^ 32 };
}

// The count of a clock behind a step in which it ticks, or does not.
#[inline(always)]
fn raised(count: u64, ticks: bool) -> u64
    ensures { result ≡ counted ticks count }
{
    count.saturating_add(u64::from(ticks))
}

impl Counts {
    /// Of so many clocks, none of which has ticked.
    pub fn new(alloc: Global, clocks: u32) -> Result<Counts, Memory>
        ensures { IfOk result (λ c. c ≡ replicate clocks 0) }
    {
        Ok(Counts {
            ticks: vec![in alloc; 0u64; clocks as usize]?,
        })
    }

    /// How often a clock has ticked.
    #[inline]
    pub fn of(&self, clock: u32) -> u64
        ensures { result ≡ slice_index_or self.now clock 0 }
    {
        match self.ticks.get(clock as usize) {
            Some(count) => *count,
            None => 0,
        }
    }

    // Visits all counts.
    #[inline]
    fn count_all(&mut self, step: &ClockSet)
        ensures clocks { length self.new ≡ length self.old }
        ensures counts { (x : ℕ) → x < length self.old →
            slice_index_or self.new x 0 ≡ counted (ticks_in x step.now)
            (slice_index_or self.old x 0) }
    {
        for at in 0..self.ticks.len() {
            self.ticks[at] = raised(self.ticks[at], step.has(at as u32));
        }
    }

    /// A step is made: one more for each clock that ticks in it.
    #[inline]
    pub fn count(&mut self, step: &ClockSet)
        ensures clocks { length self.new ≡ length self.old }
        ensures counts { (x : ℕ) → x < length self.old →
            slice_index_or self.new x 0 ≡ counted (ticks_in x step.now)
            (slice_index_or self.old x 0) }
    {
        if self.ticks.len() <= FEW {
            self.count_all(step);
        } else {
            self.count_members(step);
        }
    }

    // Visits the counts of the clocks that tick.
    #[inline]
    fn count_members(&mut self, step: &ClockSet)
        ensures clocks { length self.new ≡ length self.old }
        ensures counts { (x : ℕ) → x < length self.old →
            slice_index_or self.new x 0 ≡ counted (ticks_in x step.now)
            (slice_index_or self.old x 0) }
    {
        for clock in step.members() {
            let at = clock as usize;
            if at < self.ticks.len() {
                self.ticks[at] = self.ticks[at].saturating_add(1);
            }
        }
    }

    /// The rows of a block are made, each of which is a step.
    pub fn count_rows(&mut self, block: &Block)
        ensures clocks { length self.new ≡ length self.old }
        ensures counts { (x : ℕ) → x < length self.old → slice_index_or self.new x 0
            ≡ counted_over x (map (λ row. row.ticks) block.now.rows) (slice_index_or self.old x 0) }
    {
        for i in 0..block.len() {
            let row = block.row(i);
            self.count(&row.ticks);
        }
    }
}
