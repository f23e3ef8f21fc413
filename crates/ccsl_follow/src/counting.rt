//! Steps that are counted.

ghost use Rattle.std.specs.Prelude.{◌≡◌, ◌<◌, ℕ, length, map, slice_index_or};
ghost use Rattle.ccsl_base.specs.Clocks.{ticks_in};
ghost use Rattle.ccsl_causes.specs.Counted.{counted, counted_over};

use ccsl_base::{Block, ClockSet};
use ccsl_causes::{Counts, Leads};

// It stands by itself, so that a loop over steps has no more than its call.
#[inline(never)]
fn hear(leads: &mut Leads, step: &ClockSet, time: u64, before: &Counts) {
    leads.hear(step, time, before);
}

/// A step is heard by the leads, if there are any, and counted.
#[inline(always)]
pub(crate) fn count_step(counts: &mut Counts, leads: &mut Option<Leads>, step: &ClockSet, time: u64)
    ensures clocks { length counts.new ≡ length counts.old }
    ensures counts { (x : ℕ) → x < length counts.old → slice_index_or counts.new x 0
        ≡ counted (ticks_in x step.now) (slice_index_or counts.old x 0) }
{
    if let Some(leads) = leads {
        hear(leads, step, time, counts);
    }
    counts.count(step);
}

/// Counts the rows of a block, each of which is a step.
pub(crate) fn count_rows(counts: &mut Counts, leads: &mut Option<Leads>, block: &Block)
    ensures clocks { length counts.new ≡ length counts.old }
    ensures counts { (x : ℕ) → x < length counts.old → slice_index_or counts.new x 0
        ≡ counted_over x (map (λ row. row.ticks) block.now.rows) (slice_index_or counts.old x 0) }
{
    if leads.is_none() {
        counts.count_rows(block);
        return;
    }
    for i in 0..block.len() {
        let row = block.row(i);
        count_step(counts, leads, &row.ticks, row.time);
    }
}
