//! All items of a system, in shares.

ghost use Rattle.std.specs.Prelude.{◌≡◌, ℕ, ◌+◌, ◌<◌, ◌≤◌, ◌^◌, min, List, [], ◌++◌, length, IfOk};
ghost use Rattle.ccsl_base.specs.declared.rows.Row.{Row};
ghost use Rattle.ccsl_kernel.specs.Syntax.{System, item_count};
ghost use Rattle.ccsl_relate.specs.Violations.{Finds};
ghost use Rattle.ccsl_judge.specs.Shares.{earlier};
ghost use Rattle.ccsl_judge.specs.Divided.{FollowAll};

use crate::share::Share;
use crate::weights::{Cut, next_cut, weight_of_all};
use ccsl_base::{Block, ClockSet, Memory};
use ccsl_kernel::System;
use ccsl_pool::{Gate, check_all};
use ccsl_relate::Violation;
use std::alloc::Global;
use std::thread::Threads;

// Opens so many shares where there are none. The caller holds them: here they are held across no `?`, where their drop
// is dear to check.
fn open_into<'s>(
    shares: &mut Vec<Share<'s>>,
    alloc: Global,
    system: &'s System,
    count: u32,
    bound: &ClockSet,
) -> Result<(), Memory>
    requires none { shares.old.items ≡ [] }
    requires few { count ≤ item_count system.now }
    requires some { 1 ≤ item_count system.now → 1 ≤ count }
    ensures follow { IfOk result (λ _. FollowAll system.now bound.now [] shares.new.items) }
    ensures count { IfOk result (λ _. length shares.new.items ≡ count) }
{
    let all = weight_of_all(system, bound);
    let mut cut = Cut { item: 0, weight: 0 };
    for done in 0..count {
        let next = next_cut(system, bound, cut, count - done, all);
        let size = next.item - cut.item;
        shares.push(Share::open(alloc, system, cut.item, size, bound)?)?;
        cut = next;
    }
    Ok(())
}

/// Opens as many shares as the lesser of `workers` and the number of items. Each has neighbouring items, one at least,
/// and weighs about as much as another.
pub(crate) fn open_shares<'s>(
    alloc: Global,
    system: &'s System,
    workers: u32,
    bound: &ClockSet,
) -> Result<Vec<Share<'s>>, Memory>
    requires { 1 ≤ workers }
    ensures follow { IfOk result (λ v. FollowAll system.now bound.now [] v.items) }
    ensures count { IfOk result (λ v. length v.items ≡ min workers (item_count system.now)) }
{
    let count = workers.min(system.items());
    let mut shares = Vec::with_capacity(alloc, count as usize)?;
    match open_into(&mut shares, alloc, system, count, bound) {
        Ok(()) => Ok(shares),
        Err(Memory) => {
            drop(shares);
            Err(Memory)
        }
    }
}

// The one at the lower step, and of two at one step the first.
fn earlier(first: Option<Violation>, second: Option<Violation>) -> Option<Violation>
    ensures { result ≡ earlier first second }
{
    match (first, second) {
        (Some(one), Some(other)) if other.step < one.step => second,
        (None, _) => second,
        _ => first,
    }
}

/// Lets all shares take the rows of a block. A function of its own, since `check_all` speaks of each share alone: here
/// that becomes what all of them follow, and the loop over the blocks is spared the proof.
pub(crate) fn check_rows<R: Threads + Sync, G: Gate>(
    rt: &R,
    shares: &mut [Share<'_>],
    block: &Block,
    workers: u32,
    gate: &G,
)
    requires workers { 1 ≤ workers }
    requires follow { (K : System) × (bound : List ℕ) × (rows : List Row)
        × FollowAll K bound rows shares.old
        × (length rows + length block.now.rows < 2 ^ 64) }
    ensures { (K : System) (bound : List ℕ) (rows : List Row) → FollowAll K bound rows shares.old →
        length rows + length block.now.rows < 2 ^ 64 →
        FollowAll K bound (rows ++ block.now.rows) shares.new }
{
    check_all(rt, shares, block, workers, gate);
}

/// The first violation of all items.
pub(crate) fn first_of(shares: &[Share<'_>]) -> Option<Violation>
    ensures { (K : System) (bound : List ℕ) (rows : List Row) → FollowAll K bound rows shares.now →
        Finds K bound rows 0 (item_count K) result }
{
    let mut first = None;
    for share in shares {
        first = earlier(first, share.monitor.first());
    }
    first
}
