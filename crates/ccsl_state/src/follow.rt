//! The regions of some definitions in a step: those that hear something, each at its place.

ghost use Rattle.std.specs.Prelude.{◌≡◌, ◌≤◌, ◌<◌, ℕ, [], drop, ◌||◌, ◌&&◌, true, false, length, IfSome, IfNone};
ghost use Rattle.ccsl_base.specs.Clocks.{ticks_in, are_below, is_ascending};
ghost use Rattle.ccsl_base.specs.Changes.{put_clock};
ghost use Rattle.ccsl_kernel.specs.Accepted.{IsAccepted};
ghost use Rattle.ccsl_state.specs.States.{places_from};
ghost use Rattle.ccsl_state.specs.Regions.{trees_from, tree, size};
ghost use Rattle.ccsl_state.specs.Ready.{IsReady, HasRegions, BeginsAt};
ghost use Rattle.ccsl_state.specs.Whole.{IsWhole};
ghost use Rattle.ccsl_state.specs.Walks.{IsRewritten};
ghost use Rattle.ccsl_state.specs.Flats.{AreFlats, IsFlatAt};
ghost use Rattle.ccsl_state.specs.Passing.{AreReaders, AreKept, IsPassed};
ghost use Rattle.ccsl_state.specs.Visits.{IsVisited, IsEntered, is_waiting};

use crate::advance::advance;
use crate::definitions::put;
use crate::flat::{Flat, advance_flat};
use crate::layout::Layout;
use crate::moved::{Stepped, Visited};
use crate::readers::Readers;
use ccsl_base::{ClockSet, MAX_CLOCKS};
use ccsl_kernel::Expr;

/// What is found of a step on its way: the clocks that are dead after it, the numbers of the definitions that wait for
/// their visit, and of those that are to be visited at the next step, whatever ticks.
#[derive(Drop)]
pub struct Passage {
    pub gone: ClockSet,
    pub waiting: ClockSet,
    pub unsettled: ClockSet,
}

/// Makes a number a member of a set, or takes it out; `was` tells whether it is one. It seldom is not yet as it is to
/// be.
#[inline(always)]
#[tactic(auto, using(crate::proofs::Visiting::put_already))]
fn change(set: &mut ClockSet, number: u32, was: bool, member: bool)
    requires number { number < MAX_CLOCKS }
    requires was { was ≡ ticks_in number set.old }
    ensures { (x : ℕ) → ticks_in x set.new ≡ ticks_in x (put_clock number member set.old) }
{
    if was != member {
        set.put(number, member);
    }
}

/// Rewrites the region of any definition's expression.
#[inline(never)]
#[tactic(auto, using(crate::proofs::Places::inner_stands))]
fn advance_any(
    lay: &Layout<'_>,
    e: &Expr,
    row: &mut [u64],
    step: &ClockSet,
    gone: &ClockSet,
) -> Visited
    requires { IsReady lay.now true 0 e.now [] row.old }
    ensures moved { IsRewritten lay.now (tree lay.now e.now [])
        step.now gone.now row.old row.new result }
    ensures rest { drop (size lay.now e.now) row.new ≡ drop (size lay.now e.now) row.old }
{
    let moved = advance(lay, e, &[], row, step, gone);
    Visited {
        tick: moved.tick,
        dead: moved.dead,
        settled: moved.settled,
    }
}

/// Rewrites the region of definition number `i`, which begins at `place`. `step` has the ticks that its expression may
/// ask for, and `passage` those clocks that are dead after the step.
#[inline(always)]
fn visit(
    lay: &Layout<'_>,
    i: u32,
    place: u32,
    flat: Option<Flat>,
    row: &mut [u64],
    step: &ClockSet,
    passage: &mut Passage,
) -> Stepped
    requires regions { HasRegions lay.now 0 row.old }
    requires within { i < length lay.now.system.now.definitions }
    requires place { BeginsAt lay.now i place }
    requires flat { IsFlatAt lay.now.system.now i flat }
    requires number { i < MAX_CLOCKS }
    ensures visited { IsVisited lay.now i row.old row.new step.now passage.old.gone
        passage.old.unsettled passage.new.unsettled result }
    ensures same { passage.new ≡ record passage.old { unsettled = passage.new.unsettled } }
{
    let e = lay.system.definition(i);
    let (_, region) = row.split_at_mut(place as usize);
    match flat {
        Some(flat) => {
            let was_unsettled = passage.unsettled.has(i);
            change(&mut passage.unsettled, i, was_unsettled, false);
            advance_flat(lay.system.words(), flat, region, step, &passage.gone)
        }
        None => {
            let walked = advance_any(lay, e, region, step, &passage.gone);
            let was_unsettled = passage.unsettled.has(i);
            change(&mut passage.unsettled, i, was_unsettled, !walked.settled);
            Stepped {
                tick: walked.tick,
                dead: walked.dead,
            }
        }
    }
}

/// Whether others may hear of a visit: the clock ticked, or was dead before the step and is not after it, or the other
/// way round.
#[inline(always)]
fn has_news(visited: Stepped, was_dead: bool) -> bool
    ensures { result ≡ false → (visited.tick ≡ false) × (visited.dead ≡ was_dead) }
{
    visited.tick || visited.dead != was_dead
}

/// Makes some definitions wait, or none.
#[inline(always)]
fn wait(waiting: &mut ClockSet, news: bool, readers: &ClockSet)
    ensures { (p : ℕ) → ticks_in p waiting.new ≡
        (ticks_in p waiting.old || (news && ticks_in p readers.now)) }
{
    if news {
        waiting.insert_all(readers);
    }
}

/// Enters what came of the visit of definition number `i`, that of a clock. `step` has the ticks that are known.
#[inline(always)]
fn enter(
    passage: &mut Passage,
    step: &mut ClockSet,
    sets: &[ClockSet],
    i: u32,
    clock: u32,
    visited: Stepped,
)
    requires clock { clock < MAX_CLOCKS }
    requires number { i < MAX_CLOCKS }
    requires inside { clock < length sets.now }
    ensures { IsEntered sets.now i clock visited step.old step.new passage.old passage.new }
{
    let was_dead = passage.gone.has(clock);
    let news = has_news(visited, was_dead);
    passage.waiting.remove(i);
    wait(&mut passage.waiting, news, &sets[clock as usize]);
    put(step, clock, visited.tick);
    change(&mut passage.gone, clock, was_dead, visited.dead);
}

/// The first member of a set.
#[inline(always)]
fn first(set: &ClockSet) -> Option<u32>
    ensures member { IfSome result (λ i. ticks_in i set.now ≡ true) }
    ensures least { IfSome result (λ i. (m : ℕ) → ticks_in m set.now ≡ true → i ≤ m) }
    ensures none { IfNone result ((m : ℕ) → ticks_in m set.now ≡ false) }
{
    set.members().next()
}

/// Goes on by the full step that the declared ticks in `step` give, which has all ticks behind it: visits the
/// definitions that wait, in ascending order, with those that begin to wait meanwhile.
#[inline(always)]
pub fn follow(
    lay: &Layout<'_>,
    readers: &Readers,
    places: &[u32],
    flats: &[Option<Flat>],
    row: &mut [u64],
    step: &mut ClockSet,
    passage: &mut Passage,
)
    requires accepted { IsAccepted lay.now.system.now }
    requires whole { IsWhole lay.now row.old }
    requires places { places.now ≡ places_from lay.now.earlier.now 0
        lay.now.system.now.definitions }
    requires flats { AreFlats lay.now.system.now flats.now }
    requires readers { AreReaders lay.now.system.now readers.now.followed readers.now.sets.items }
    requires kept { AreKept lay.now.system.now readers.now.followed
        (trees_from lay.now 0 row.old) passage.old.gone passage.old.unsettled }
    requires low { are_below lay.now.system.now.declared step.old ≡ true }
    requires ascends { is_ascending step.old ≡ true }
    requires waiting { (p : ℕ) → ticks_in p passage.old.waiting ≡
        is_waiting readers.now.sets.items passage.old.unsettled step.old p }
    ensures passed { IsPassed lay.now.system.now readers.now.followed (trees_from lay.now 0 row.old)
        step.old (trees_from lay.now 0 row.new) step.new passage.new.gone }
    ensures kept { AreKept lay.now.system.now readers.now.followed
        (trees_from lay.now 0 row.new) passage.new.gone passage.new.unsettled }
    ensures ascends { is_ascending step.new ≡ true }
{
    'visits: while let Some(i) = first(&passage.waiting) {
        let clock = lay.system.scope().declared + i;
        let place = places[i as usize];
        let visited = visit(lay, i, place, flats[i as usize], row, step, passage);
        enter(passage, step, readers.sets.as_slice(), i, clock, visited);
    }
}
