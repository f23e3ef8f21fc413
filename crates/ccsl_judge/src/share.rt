//! What one thread does of the judging.

ghost use Rattle.std.specs.Prelude.{◌≡◌, ◌+◌, ◌≤◌, [], length, IfOk};
ghost use Rattle.ccsl_kernel.specs.Syntax.{item_count};
ghost use Rattle.ccsl_relate.specs.Watching.{StandsFor};
ghost use Rattle.ccsl_judge.specs.Shares.{CanTake, Takes};

use ccsl_base::{Block, ClockSet, Memory};
use ccsl_kernel::System;
use ccsl_pool::Piece;
use ccsl_relate::Monitor;
use std::alloc::Global;

/// Neighbouring items, which are followed together. A type of its own, since neither ccsl_pool, which has `Piece`, nor
/// ccsl_relate, which has `Monitor`, uses the other.
#[derive(Drop)]
pub(crate) struct Share<'s> {
    pub(crate) monitor: Monitor<'s>,
}

impl<'s> Share<'s> {
    pub(crate) fn open(
        alloc: Global,
        system: &'s System,
        start: u32,
        count: u32,
        bound: &ClockSet,
    ) -> Result<Share<'s>, Memory>
        requires { start + count ≤ item_count system.now }
        ensures system { IfOk result (λ s. s.monitor.system ≡ system.now) }
        ensures start { IfOk result (λ s. s.monitor.start ≡ start) }
        ensures count { IfOk result (λ s. length s.monitor.kept ≡ count) }
        ensures stands { IfOk result (λ s. StandsFor bound.now s.monitor []) }
    {
        let monitor = Monitor::open(alloc, system, start, count, bound)?;
        Ok(Share { monitor })
    }
}

impl<'s> Piece for Share<'s> {
    ghost can_take = { λ s rows. CanTake s.monitor rows };

    ghost takes = { λ s rows t. Takes s.monitor rows t.monitor };

    fn work(&mut self, block: &Block) {
        self.monitor.check_block(block);
    }
}
