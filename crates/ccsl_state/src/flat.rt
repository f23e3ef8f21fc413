//! Definitions that are one operator over clocks: their regions are rewritten without a walk.

ghost use Rattle.std.specs.Prelude.{◌≡◌, ◌≤◌, ◌+◌, [], drop, length, option_map, slice_index, true, IfOk, IfSome};
ghost use Rattle.ccsl_base.specs.Clocks.{ticks_in};
ghost use Rattle.ccsl_kernel.specs.declared.expr.Expr.{Expr};
ghost use Rattle.ccsl_kernel.specs.declared.expr.Place.TheVariants as place;
ghost use Rattle.ccsl_kernel.specs.Syntax.{EName};
ghost use Rattle.ccsl_kernel.specs.Plain.{plain_expr};
ghost use Rattle.ccsl_state.specs.declared.layout.Layout.{Layout};
ghost use Rattle.ccsl_state.specs.Tree.{one_ticks, one_next, one_dead, two_ticks, two_dead, two_next};
ghost use Rattle.ccsl_state.specs.Layout.{own_cells, two_at, words_of, lag_at};
ghost use Rattle.ccsl_state.specs.Nodes.{one_at, node_ticks, node_dead};
ghost use Rattle.ccsl_state.specs.Regions.{tree, size};
ghost use Rattle.ccsl_state.specs.Ready.{IsReady};
ghost use Rattle.ccsl_state.specs.Walks.{IsRewritten};
ghost use Rattle.ccsl_state.specs.Flats.{IsFlat, AreFlats};

use crate::cells::{is_then, own_cells};
use crate::lag::{lag_cells, lag_dead, lag_moved, lag_ticks};
use crate::moved::Stepped;
use crate::node::{Unary, two_dead, two_moved, two_ticks};
use ccsl_base::{ClockSet, MAX_DELAY, Memory};
use ccsl_kernel::{Expr, ExprOp, Place, System};
use ccsl_words::Word;
use std::alloc::Global;

/// An operator over clocks: what a visit asks of such an expression, found once. The numbers are those of clocks, and
/// how many ticks a delay, an await or a delayed counts.
#[derive(Clone, Copy)]
pub enum Flat {
    /// An operator but `then`, and its operands.
    Two(ExprOp, u32, u32),
    /// The left operand, the count and the right operand of a delayed.
    Delayed(u32, u32, u32),
    /// An operand and its count.
    Delay(u32, u32),
    /// An operand and its count.
    Await(u32, u32),
}

/// The clock that an expression names.
#[inline(always)]
fn clock_of(e: &Expr) -> Option<u32>
    ensures { IfSome result (λ x. plain_expr e.now ≡ EName (place.Clock x)) }
{
    match e {
        Expr::Name(Place::Clock(x)) => Some(*x),
        _ => None,
    }
}

/// An expression as one operator over clocks, if it is one.
pub fn flat_of(e: &Expr) -> Option<Flat>
    ensures { IfSome result (IsFlat e.now) }
{
    match e {
        Expr::Binary(op, a, d) if !is_then(*op) => match (clock_of(a), clock_of(d)) {
            (Some(x), Some(y)) => Some(Flat::Two(*op, x, y)),
            _ => None,
        },
        Expr::Delayed(a, m, d) => match (clock_of(a), clock_of(d)) {
            (Some(x), Some(y)) => Some(Flat::Delayed(x, *m, y)),
            _ => None,
        },
        Expr::Delay(a, m) => match clock_of(a) {
            Some(x) => Some(Flat::Delay(x, m.number(&[]))),
            None => None,
        },
        Expr::Await(a, m) => match clock_of(a) {
            Some(x) => Some(Flat::Await(x, m.number(&[]))),
            None => None,
        },
        _ => None,
    }
}

/// An operator over one clock.
#[inline(always)]
fn one_clock(
    words: &[Word],
    unary: Unary,
    x: u32,
    row: &mut [u64],
    step: &ClockSet,
    gone: &ClockSet,
) -> Stepped
    requires { 1 ≤ length row.old }
    ensures tick { result.tick ≡ one_ticks
        (one_at words.now unary (slice_index row.old 0)) (ticks_in x step.now) }
    ensures node { one_at words.now unary (slice_index row.new 0) ≡
        one_next (one_at words.now unary (slice_index row.old 0)) (ticks_in x step.now) }
    ensures dead { result.dead ≡ one_dead
        (one_at words.now unary (slice_index row.new 0)) (ticks_in x gone.now) }
    ensures rest { drop 1 row.new ≡ drop 1 row.old }
{
    unary.stepped(words, &mut row[0], step.has(x), gone.has(x))
}

/// An operator over two clocks.
#[inline(always)]
fn two_clocks(
    op: ExprOp,
    x: u32,
    y: u32,
    row: &mut [u64],
    step: &ClockSet,
    gone: &ClockSet,
) -> Stepped
    requires { own_cells op ≤ length row.old }
    ensures tick { result.tick ≡ node_ticks (two_at op row.old)
        (ticks_in x step.now) (ticks_in y step.now) }
    ensures node { two_at op row.new ≡
        option_map (λ o. two_next o (ticks_in x step.now) (ticks_in y step.now))
        (two_at op row.old) }
    ensures dead { result.dead ≡ node_dead (two_at op row.new)
        (ticks_in x gone.now) (ticks_in y gone.now) }
    ensures rest { drop (own_cells op) row.new ≡ drop (own_cells op) row.old }
{
    let (head, _) = row.split_at_mut(own_cells(op));
    let (left, right) = (step.has(x), step.has(y));
    let tick = two_ticks(op, head, left, right);
    two_moved(op, head, left, right);
    Stepped {
        tick,
        dead: two_dead(op, head, gone.has(x), gone.has(y)),
    }
}

/// A delayed over two clocks.
#[inline(always)]
fn lag_clocks(m: u32, x: u32, y: u32, row: &mut [u64], step: &ClockSet, gone: &ClockSet) -> Stepped
    requires some { 1 ≤ m }
    requires short { m ≤ MAX_DELAY }
    requires room { 2 + words_of m ≤ length row.old }
    ensures tick { result.tick ≡ two_ticks (lag_at m row.old)
        (ticks_in x step.now) (ticks_in y step.now) }
    ensures node { lag_at m row.new ≡ two_next (lag_at m row.old)
        (ticks_in x step.now) (ticks_in y step.now) }
    ensures dead { result.dead ≡ two_dead (lag_at m row.new)
        (ticks_in x gone.now) (ticks_in y gone.now) }
    ensures rest { drop (2 + words_of m) row.new ≡ drop (2 + words_of m) row.old }
{
    let (head, _) = row.split_at_mut(lag_cells(m));
    let (left, right) = (step.has(x), step.has(y));
    let tick = lag_ticks(m, head, right);
    lag_moved(m, head, left, right);
    Stepped {
        tick,
        dead: lag_dead(m, head, gone.has(x), gone.has(y)),
    }
}

/// Rewrites the region of an expression that is one operator over clocks. Such a region is settled.
#[inline(always)]
pub fn advance_flat(
    words: &[Word],
    flat: Flat,
    row: &mut [u64],
    step: &ClockSet,
    gone: &ClockSet,
) -> Stepped
    requires { (lay : Layout) × (e : Expr) × IsReady lay true 0 e [] row.old × IsFlat e flat }
    ensures moved { (lay : Layout) (e : Expr) → lay.system.now.words ≡ words.now →
        IsReady lay true 0 e [] row.old → IsFlat e flat →
        IsRewritten lay (tree lay e []) step.now gone.now row.old row.new
        (record { tick = result.tick; dead = result.dead; settled = true }) }
    ensures rest { (lay : Layout) (e : Expr) → IsReady lay true 0 e [] row.old → IsFlat e flat →
        drop (size lay e) row.new ≡ drop (size lay e) row.old }
{
    match flat {
        Flat::Two(op, x, y) => two_clocks(op, x, y, row, step, gone),
        Flat::Delayed(x, m, y) => lag_clocks(m, x, y, row, step, gone),
        Flat::Delay(x, m) => one_clock(words, Unary::Delay(m), x, row, step, gone),
        Flat::Await(x, m) => one_clock(words, Unary::Await(m), x, row, step, gone),
    }
}

/// Each definition as one operator over clocks, where it is one.
pub fn flats(alloc: Global, system: &System) -> Result<Vec<Option<Flat>>, Memory>
    ensures { IfOk result (λ v. AreFlats system.now v.items) }
{
    let mut flats = Vec::with_capacity(alloc, system.definitions() as usize)?;
    for i in 0..system.definitions() {
        flats.push(flat_of(system.definition(i)))?;
    }
    Ok(flats)
}
