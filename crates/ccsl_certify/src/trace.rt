//! Replaying a trace.

ghost use Rattle.std.specs.Prelude.{◌≡◌, ℕ, ◌<◌, List, [], IfOk, IfErr, IfNone, None, Some};
ghost use Rattle.ccsl_edge.specs.World.{State};
ghost use Rattle.ccsl_kernel.specs.Syntax.{System};
ghost use Rattle.ccsl_bind.specs.Collected.{wanted_of};
ghost use Rattle.ccsl_vcd.specs.declared.limits.Limits.{Limits};
ghost use Rattle.ccsl_trace.specs.Feeding.{bound_of, calls_left, Feeds};
ghost use Rattle.ccsl_trace.specs.Traces.{IsUnread};
ghost use Rattle.ccsl_certify.specs.Replaying.{Follows, IsReplayed, Goes, HasEnded, Stands};

use crate::answer::Replayed;
use crate::both::both;
use crate::follower::Follower;
use ccsl_base::{HashKeys, Memory};
use ccsl_edge::World;
use ccsl_kernel::System;
use ccsl_trace::{Feed, Next, TraceFault};
use ccsl_vcd::Limits;
use std::alloc::Global;

/// Why a trace was not replayed: what refuses its reading, or no memory for what follows it.
pub type ReplayFault = TraceFault;

// A trace whose header was read, and what follows its rows.
#[derive(Drop)]
struct Replaying<'s> {
    feed: Feed,
    follower: Follower<'s>,
}

// What follows the trace whose bound clocks a feed shows.
fn follower_for<'s>(alloc: Global, system: &'s System, feed: &Feed) -> Result<Follower<'s>, Memory>
    ensures { IfOk result (λ f. (bound : List ℕ) → bound_of feed.now ≡ Some bound →
        Follows system.now bound [] f) }
{
    match feed.bound() {
        Some(bound) => Follower::open(alloc, system, bound),
        None => Err(Memory),
    }
}

// Reads the header, and opens what follows the trace from there on.
fn follow_header<'s, W: World>(
    alloc: Global,
    world: &mut W,
    system: &'s System,
    feed: &mut Feed,
) -> Result<Follower<'s>, ReplayFault>
    requires unbound { bound_of feed.old ≡ None }
    requires feeds { (limits : Limits) ×
        Feeds W.told (wanted_of system.now) limits (W.state world.old)
        (W.state world.old) feed.old [] }
    ensures goes { IfOk result (λ f. (limits : Limits) →
        Feeds W.told (wanted_of system.now) limits (W.state world.old)
        (W.state world.old) feed.old [] →
        Goes W.told system.now limits (W.state world.old) (W.state world.new) feed.new f) }
    ensures unread { IfErr result (λ fault. (limits : Limits) →
        Feeds W.told (wanted_of system.now) limits (W.state world.old)
        (W.state world.old) feed.old [] →
        IsUnread W.told (wanted_of system.now) limits (W.state world.old)
        (W.state world.new) fault) }
{
    match feed.next(world) {
        Ok(_header) => {}
        Err(fault) => return Err(fault),
    }
    match follower_for(alloc, system, feed) {
        Ok(follower) => Ok(follower),
        Err(Memory) => Err(ReplayFault::Memory),
    }
}

impl<'s> Replaying<'s> {
    // Reads the header, and follows the trace from there on.
    fn begin<W: World>(
        alloc: Global,
        keys: HashKeys,
        world: &mut W,
        system: &'s System,
        limits: &Limits,
    ) -> Result<Replaying<'s>, ReplayFault>
        ensures goes { IfOk result (λ r.
            Goes W.told system.now limits.now (W.state world.old)
            (W.state world.new) r.feed r.follower) }
        ensures unread { IfErr result (λ fault.
            IsUnread W.told (wanted_of system.now) limits.now (W.state world.old)
            (W.state world.new) fault) }
    {
        let mut feed = match Feed::open(alloc, keys, system, limits) {
            Ok(feed) => feed,
            Err(Memory) => return Err(ReplayFault::Memory),
        };
        let follower = follow_header(alloc, world, system, &mut feed);
        match both(feed, follower) {
            Ok((feed, follower)) => Ok(Replaying { feed, follower }),
            Err(fault) => Err(fault),
        }
    }

    // Takes the next rows, and answers how many the trace has where they are the last.
    fn take_next<W: World>(&mut self, world: &mut W) -> Result<Option<u64>, ReplayFault>
        requires goes { (K : System) × (limits : Limits) × (start : State)
            × Goes W.told K limits start (W.state world.old) self.old.feed self.old.follower }
        ensures stands { IfOk result (λ ended. (K : System) (limits : Limits) (start : State) →
            Goes W.told K limits start (W.state world.old) self.old.feed self.old.follower →
            Stands W.told K limits start (W.state world.new) ended
            self.new.feed self.new.follower) }
        ensures nears { IfOk result (λ ended.
            IfNone ended (calls_left self.new.feed < calls_left self.old.feed)) }
        ensures unread { IfErr result (λ fault. (K : System) (limits : Limits) (start : State) →
            Goes W.told K limits start (W.state world.old) self.old.feed self.old.follower →
            IsUnread W.told (wanted_of K) limits start (W.state world.new) fault) }
    {
        let next = match self.feed.next(world) {
            Ok(next) => next,
            Err(fault) => return Err(fault),
        };
        self.follower.take(self.feed.block());
        match next {
            Next::Bound => Ok(None),
            Next::Rows => Ok(None),
            Next::Ended(counts) => Ok(Some(counts.rows)),
        }
    }

    // Takes all rows to the end of the trace, and answers how many they are.
    fn take_all<W: World>(&mut self, world: &mut W) -> Result<u64, ReplayFault>
        requires goes { (K : System) × (limits : Limits) × (start : State)
            × Goes W.told K limits start (W.state world.old) self.old.feed self.old.follower }
        ensures ended { IfOk result (λ rows. (K : System) (limits : Limits) (start : State) →
            Goes W.told K limits start (W.state world.old) self.old.feed self.old.follower →
            HasEnded W.told K limits start (W.state world.new) rows self.new.follower) }
        ensures unread { IfErr result (λ fault. (K : System) (limits : Limits) (start : State) →
            Goes W.told K limits start (W.state world.old) self.old.feed self.old.follower →
            IsUnread W.told (wanted_of K) limits start (W.state world.new) fault) }
    {
        loop {
            match self.take_next(world) {
                Ok(None) => {}
                Ok(Some(rows)) => return Ok(rows),
                Err(fault) => return Err(fault),
            }
        }
    }
}

/// Reads what is left of the trace, to its end, and says whether it is a run of a system. Where it is one, the states
/// after it are answered; else the least step at which an item is violated, and the least item there.
pub fn replay<'s, W: World>(
    alloc: Global,
    keys: HashKeys,
    world: &mut W,
    system: &'s System,
    limits: &Limits,
) -> Result<Replayed<'s>, ReplayFault>
    ensures replayed { IfOk result (λ replayed.
        IsReplayed W.told system.now limits.now (W.state world.old) (W.state world.new) replayed) }
    ensures unread { IfErr result (λ fault.
        IsUnread W.told (wanted_of system.now) limits.now (W.state world.old)
        (W.state world.new) fault) }
{
    let mut replaying = match Replaying::begin(alloc, keys, world, system, limits) {
        Ok(replaying) => replaying,
        Err(fault) => return Err(fault),
    };
    // What is large goes by calls of `drop`, which are cheap to check.
    match replaying.take_all(world) {
        Ok(rows) => {
            let Replaying { feed, follower } = replaying;
            drop(feed);
            Ok(follower.answer(rows))
        }
        Err(fault) => {
            drop(replaying);
            Err(fault)
        }
    }
}
