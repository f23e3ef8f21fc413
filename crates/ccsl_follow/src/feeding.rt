//! The rows of a trace, block by block.

ghost use Rattle.std.specs.Prelude.{◌≡◌, true, IfOk, OnOk};
ghost use Rattle.ccsl_edge.specs.Counts.{SameCounts};
ghost use Rattle.ccsl_follow.specs.Fed.{IsFed};
ghost use Rattle.ccsl_follow.specs.OnlyReads.{OnlyReads};

use crate::stop::{Stop, stop_of_trace};
use ccsl_base::{HashKeys, Memory};
use ccsl_edge::World;
use ccsl_kernel::System;
use ccsl_trace::{Feed, Next};
use ccsl_vcd::LIMITS;
use std::alloc::Global;

/// A feed before the first byte of the trace.
pub fn open_feed<W: World>(
    alloc: Global,
    keys: HashKeys,
    world: &W,
    system: &System,
) -> Result<Feed, Stop>
    ensures { IfOk result (λ feed. IsFed W.told (W.state world.now) feed) }
{
    match Feed::open(alloc, keys, system, &LIMITS) {
        Ok(feed) => Ok(feed),
        Err(Memory) => Err(Stop::Memory),
    }
}

/// Reads on, and answers whether more is to come behind what the block has.
pub fn next_rows<W: World>(feed: &mut Feed, world: &mut W) -> Result<bool, Stop>
    requires { IsFed W.told (W.state world.old) feed.old }
    ensures fed { IfOk result (λ more. more ≡ true → IsFed W.told (W.state world.new) feed.new) }
    ensures reads { OnlyReads (W.state world.old) (W.state world.new) }
    ensures calm { OnOk result (SameCounts (W.state world.old) (W.state world.new)) }
{
    match feed.next(world) {
        Ok(next) => match next {
            Next::Bound => Ok(true),
            Next::Rows => Ok(true),
            Next::Ended(_) => Ok(false),
        },
        Err(fault) => Err(stop_of_trace(fault)),
    }
}
