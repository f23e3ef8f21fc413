//! Judging a trace.

ghost use Rattle.std.specs.Prelude.{◌≡◌, ℕ, ◌<◌, ◌≤◌, List, [], IfOk, IfErr, IfNone, Some};
ghost use Rattle.ccsl_edge.specs.World.{State};
ghost use Rattle.ccsl_kernel.specs.Syntax.{System};
ghost use Rattle.ccsl_bind.specs.Collected.{wanted_of};
ghost use Rattle.ccsl_vcd.specs.declared.limits.Limits.{Limits};
ghost use Rattle.ccsl_trace.specs.Feeding.{bound_of, calls_left};
ghost use Rattle.ccsl_trace.specs.Traces.{IsUnread};
ghost use Rattle.ccsl_judge.specs.Divided.{FollowAll};
ghost use Rattle.ccsl_judge.specs.Going.{Goes, HasEnded, Stands};
ghost use Rattle.ccsl_judge.specs.Judged.{IsJudged, HasItem};

use crate::share::Share;
use crate::shares::{check_rows, first_of, open_shares};
use crate::verdict::{Verdict, verdict_on};
use ccsl_base::{HashKeys, Memory};
use ccsl_edge::World;
use ccsl_kernel::System;
use ccsl_pool::Gate;
use ccsl_trace::{Feed, Next, TraceFault};
use ccsl_vcd::Limits;
use std::alloc::Global;
use std::thread::Threads;

/// Why a trace was not judged: what refuses its reading, or no memory for the shares.
pub type JudgeFault = TraceFault;

// A trace whose header was read, and the shares of the items.
#[derive(Drop)]
struct Judging<'s> {
    feed: Feed,
    shares: Vec<Share<'s>>,
}

// The shares for the clocks that a feed shows.
fn shares_for<'s>(
    alloc: Global,
    system: &'s System,
    workers: u32,
    feed: &Feed,
) -> Result<Vec<Share<'s>>, Memory>
    requires { 1 ≤ workers }
    ensures { IfOk result (λ shares. (bound : List ℕ) → bound_of feed.now ≡ Some bound →
        FollowAll system.now bound [] shares.items) }
{
    match feed.bound() {
        Some(bound) => open_shares(alloc, system, workers, bound),
        None => Ok(Vec::new(alloc)),
    }
}

impl<'s> Judging<'s> {
    // Reads the header, and opens the shares for the clocks that it binds. A feed goes by calls of `drop`, which are
    // cheap to check.
    fn begin<W: World>(
        alloc: Global,
        keys: HashKeys,
        world: &mut W,
        system: &'s System,
        workers: u32,
        limits: &Limits,
    ) -> Result<Judging<'s>, JudgeFault>
        requires { 1 ≤ workers }
        ensures goes { IfOk result (λ j.
            Goes W.told system.now limits.now (W.state world.old)
            (W.state world.new) j.feed j.shares.items) }
        ensures unread { IfErr result (λ fault.
            IsUnread W.told (wanted_of system.now) limits.now (W.state world.old)
            (W.state world.new) fault) }
    {
        let mut feed = match Feed::open(alloc, keys, system, limits) {
            Ok(feed) => feed,
            Err(Memory) => return Err(JudgeFault::Memory),
        };
        match feed.next(world) {
            Ok(_header) => {}
            Err(unread) => {
                drop(feed);
                return Err(unread);
            }
        }
        match shares_for(alloc, system, workers, &feed) {
            Ok(shares) => Ok(Judging { feed, shares }),
            Err(Memory) => {
                drop(feed);
                Err(JudgeFault::Memory)
            }
        }
    }

    // Judges the next rows, and answers how many the trace has where they are the last.
    fn check_next<R: Threads + Sync, W: World, G: Gate>(
        &mut self,
        rt: &R,
        world: &mut W,
        workers: u32,
        gate: &G,
    ) -> Result<Option<u64>, JudgeFault>
        requires workers { 1 ≤ workers }
        requires goes { (K : System) × (limits : Limits) × (start : State)
            × Goes W.told K limits start (W.state world.old) self.old.feed self.old.shares.items }
        ensures stands { IfOk result (λ ended. (K : System) (limits : Limits) (start : State) →
            Goes W.told K limits start (W.state world.old) self.old.feed self.old.shares.items →
            Stands W.told K limits start (W.state world.new) ended
            self.new.feed self.new.shares.items) }
        ensures nears { IfOk result (λ ended.
            IfNone ended (calls_left self.new.feed < calls_left self.old.feed)) }
        ensures unread { IfErr result (λ fault. (K : System) (limits : Limits) (start : State) →
            Goes W.told K limits start (W.state world.old) self.old.feed self.old.shares.items →
            IsUnread W.told (wanted_of K) limits start (W.state world.new) fault) }
    {
        let next = match self.feed.next(world) {
            Ok(next) => next,
            Err(fault) => return Err(fault),
        };
        let shares = self.shares.as_mut_slice();
        check_rows(rt, shares, self.feed.block(), workers, gate);
        match next {
            Next::Bound | Next::Rows => Ok(None),
            Next::Ended(counts) => Ok(Some(counts.rows)),
        }
    }

    // Judges all rows to the end of the trace, and answers how many they are.
    fn check_all<R: Threads + Sync, W: World, G: Gate>(
        &mut self,
        rt: &R,
        world: &mut W,
        workers: u32,
        gate: &G,
    ) -> Result<u64, JudgeFault>
        requires workers { 1 ≤ workers }
        requires goes { (K : System) × (limits : Limits) × (start : State)
            × Goes W.told K limits start (W.state world.old) self.old.feed self.old.shares.items }
        ensures ended { IfOk result (λ rows. (K : System) (limits : Limits) (start : State) →
            Goes W.told K limits start (W.state world.old) self.old.feed self.old.shares.items →
            HasEnded W.told K limits start (W.state world.new) rows self.new.shares.items) }
        ensures unread { IfErr result (λ fault. (K : System) (limits : Limits) (start : State) →
            Goes W.told K limits start (W.state world.old) self.old.feed self.old.shares.items →
            IsUnread W.told (wanted_of K) limits start (W.state world.new) fault) }
    {
        loop {
            match self.check_next(rt, world, workers, gate) {
                Ok(None) => {}
                Ok(Some(rows)) => return Ok(rows),
                Err(fault) => return Err(fault),
            }
        }
    }
}

/// Judges what is left of the trace against a system. It is read to its end also behind a violation, and a fault of it
/// comes before a verdict. The items are divided among as many shares as the lesser of `workers` and their number, each
/// of which takes every block in a part of the work of its own. A share has neighbouring items, and costs about as much
/// as another: the definition of a clock that is not recorded costs nothing, a constraint between declared clocks
/// little. Memory is taken before the first row.
pub fn judge<R: Threads + Sync, W: World, G: Gate>(
    rt: &R,
    alloc: Global,
    keys: HashKeys,
    world: &mut W,
    system: &System,
    workers: u32,
    gate: &G,
    limits: &Limits,
) -> Result<Verdict, JudgeFault>
    requires { 1 ≤ workers }
    ensures judged { IfOk result (λ verdict.
        IsJudged W.told system.now limits.now (W.state world.old) (W.state world.new) verdict) }
    ensures item { IfOk result (HasItem system.now) }
    ensures unread { IfErr result (λ fault.
        IsUnread W.told (wanted_of system.now) limits.now (W.state world.old)
        (W.state world.new) fault) }
{
    let mut judging = match Judging::begin(alloc, keys, world, system, workers, limits) {
        Ok(judging) => judging,
        Err(fault) => return Err(fault),
    };
    match judging.check_all(rt, world, workers, gate) {
        Ok(rows) => {
            let first = first_of(judging.shares.as_slice());
            drop(judging);
            Ok(verdict_on(first, rows))
        }
        Err(fault) => {
            drop(judging);
            Err(fault)
        }
    }
}
