//! The region of an expression after a step. One pass tells the tick in the step, rewrites the cells, and tells the
//! death after it.

ghost use Rattle.std.specs.Prelude.{◌≡◌, ◌≤◌, ◌+◌, ℕ, false, true, drop, None};
ghost use Rattle.ccsl_state.specs.Layout.{words_of, own_cells, two_at};
ghost use Rattle.ccsl_state.specs.Regions.{tree, call_tree, one_tree, pair_tree, then_tree, lag_node, size, pair_size, choice_size, MayStand, HasRoom};
ghost use Rattle.ccsl_state.specs.Ready.{IsReady, AreReady, IsCallReady};
ghost use Rattle.ccsl_state.specs.Walks.{IsAdvanced, IsRewritten};

use crate::call::call_body;
use crate::cells::{is_then, own_cells, size_of};
use crate::lag::{lag_cells, lag_dead, lag_moved, lag_ticks};
use crate::layout::Layout;
use crate::moved::{Moved, Visited};
use crate::name::{is_gone, name_ticks};
use crate::node::{Unary, filter_from, two_dead, two_moved, two_ticks};
use crate::open::{call_opened, opened};
use crate::tail::own_call;
use ccsl_base::{ClockSet, MAX_DELAY};
use ccsl_kernel::{Actual, Expr, ExprOp};

/// Rewrites the region of an expression by a step: whether it ticks in it, whether it is dead behind it, and how many
/// cells the region has. It takes no memory.
#[cycle(advance)]
pub fn advance<'s>(
    lay: &Layout<'s>,
    e: &'s Expr,
    actuals: &[Actual],
    row: &mut [u64],
    step: &ClockSet,
    gone: &ClockSet,
) -> Moved<'s>
    requires { IsReady lay.now false 0 e.now actuals.now row.old }
    ensures moved { IsAdvanced lay.now actuals.now (tree lay.now e.now actuals.now)
        (size lay.now e.now) step.now gone.now row.old row.new result }
    ensures inner { MayStand lay.now true e.now → result.tail ≡ None }
{
    match e {
        Expr::Name(place) => {
            let actual = place.actual(actuals);
            Moved {
                tick: name_ticks(actual, step),
                dead: is_gone(actual, gone),
                settled: true,
                size: 1,
                tail: None,
            }
        }
        Expr::Call { group, .. } => {
            if (*group as usize) < lay.earlier.len() {
                let inner = lay.before(*group);
                let stepped = advance_call(&inner, *group, row, step, gone);
                Moved {
                    tick: stepped.tick,
                    dead: stepped.dead,
                    settled: stepped.settled,
                    size: lay.earlier[*group as usize] as usize,
                    tail: None,
                }
            } else {
                Moved {
                    tick: false,
                    dead: false,
                    settled: true,
                    size: 0,
                    tail: None,
                }
            }
        }
        Expr::Never => Moved {
            tick: false,
            dead: false,
            settled: true,
            size: 1,
            tail: None,
        },
        Expr::Binary(op, a, d) => {
            if is_then(*op) {
                advance_then(lay, a, d, actuals, row, step, gone)
            } else {
                advance_two(lay, *op, a, d, actuals, row, step, gone)
            }
        }
        Expr::Delay(a, m) => {
            let unary = Unary::Delay(m.number(actuals));
            advance_one(lay, unary, a, actuals, row, step, gone)
        }
        Expr::Await(a, m) => {
            let unary = Unary::Await(m.number(actuals));
            advance_one(lay, unary, a, actuals, row, step, gone)
        }
        Expr::Filter(a, word) => {
            let words = lay.system.words();
            let unary = filter_from(words, word.suffix(words, actuals));
            advance_one(lay, unary, a, actuals, row, step, gone)
        }
        Expr::Delayed(a, m, d) => advance_lag(lay, a, *m, d, actuals, row, step, gone),
        Expr::If(test, a, d) => {
            let (_, rest) = row.split_at_mut(1);
            if test.holds(lay.system.words(), actuals) {
                let moved = advance(lay, a, actuals, rest, step, gone);
                let size = 1 + moved.size.max(size_of(d, lay.earlier));
                Moved { size, ..moved }
            } else {
                let moved = advance(lay, d, actuals, rest, step, gone);
                let size = 1 + moved.size.max(size_of(a, lay.earlier));
                Moved { size, ..moved }
            }
        }
    }
}

/// An operator of one operand.
#[cycle(advance)]
fn advance_one<'s>(
    lay: &Layout<'s>,
    unary: Unary,
    a: &'s Expr,
    actuals: &[Actual],
    row: &mut [u64],
    step: &ClockSet,
    gone: &ClockSet,
) -> Moved<'s>
    requires { IsReady lay.now true 1 a.now actuals.now row.old }
    ensures moved { IsAdvanced lay.now actuals.now (one_tree lay.now unary a.now actuals.now)
        (1 + size lay.now a.now) step.now gone.now row.old row.new result }
    ensures tail { result.tail ≡ None }
{
    let (head, rest) = row.split_at_mut(1);
    let moved = advance(lay, a, actuals, rest, step, gone);
    let stepped = unary.stepped(lay.system.words(), &mut head[0], moved.tick, moved.dead);
    Moved {
        tick: stepped.tick,
        dead: stepped.dead,
        settled: moved.settled,
        size: 1 + moved.size,
        tail: None,
    }
}

/// An operator of two operands.
#[cycle(advance)]
fn advance_two<'s>(
    lay: &Layout<'s>,
    op: ExprOp,
    a: &'s Expr,
    d: &'s Expr,
    actuals: &[Actual],
    row: &mut [u64],
    step: &ClockSet,
    gone: &ClockSet,
) -> Moved<'s>
    requires { AreReady lay.now (own_cells op) a.now d.now actuals.now row.old }
    ensures moved { IsAdvanced lay.now actuals.now
        (pair_tree lay.now (two_at op) (own_cells op) a.now d.now actuals.now)
        (pair_size lay.now (own_cells op) a.now d.now)
        step.now gone.now row.old row.new result }
    ensures tail { result.tail ≡ None }
{
    let (head, rest) = row.split_at_mut(own_cells(op));
    let left = advance(lay, a, actuals, rest, step, gone);
    let (_, behind) = rest.split_at_mut(left.size);
    let right = advance(lay, d, actuals, behind, step, gone);
    let tick = two_ticks(op, head, left.tick, right.tick);
    two_moved(op, head, left.tick, right.tick);
    Moved {
        tick,
        dead: two_dead(op, head, left.dead, right.dead),
        settled: left.settled & right.settled,
        size: own_cells(op) + left.size + right.size,
        tail: None,
    }
}

/// A then. Where its left operand has died, its right operand is born: in its region, or as a call of the own group.
#[cycle(advance)]
fn advance_then<'s>(
    lay: &Layout<'s>,
    a: &'s Expr,
    d: &'s Expr,
    actuals: &[Actual],
    row: &mut [u64],
    step: &ClockSet,
    gone: &ClockSet,
) -> Moved<'s>
    requires left { IsReady lay.now true 1 a.now actuals.now row.old }
    requires right { IsReady lay.now false 1 d.now actuals.now row.old }
    ensures moved { IsAdvanced lay.now actuals.now (then_tree lay.now a.now d.now actuals.now)
        (choice_size lay.now a.now d.now) step.now gone.now row.old row.new result }
    ensures inner { MayStand lay.now true d.now → result.tail ≡ None }
{
    let (head, rest) = row.split_at_mut(1);
    if head[0] != 0 {
        let right = advance(lay, d, actuals, rest, step, gone);
        let size = 1 + right.size.max(size_of(a, lay.earlier));
        return Moved { size, ..right };
    }
    let left = advance(lay, a, actuals, rest, step, gone);
    let size = 1 + left.size.max(size_of(d, lay.earlier));
    if !left.dead {
        return Moved {
            tick: left.tick,
            dead: false,
            settled: left.settled,
            size,
            tail: None,
        };
    }
    match own_call(lay, d, actuals) {
        Some(call) => Moved {
            tick: left.tick,
            dead: false,
            settled: false,
            size,
            tail: Some(call),
        },
        None => {
            head[0] = 1;
            let born = opened(lay, d, actuals, rest, gone);
            Moved {
                tick: left.tick,
                dead: born.dead,
                settled: false,
                size,
                tail: None,
            }
        }
    }
}

/// The region of a call to the group behind all that `lay` has. Where its body comes to a call of the group, the whole
/// region is written anew; the parameters were taken from their cells before.
#[cycle(advance)]
fn advance_call(
    lay: &Layout<'_>,
    group: u32,
    row: &mut [u64],
    step: &ClockSet,
    gone: &ClockSet,
) -> Visited
    requires { IsCallReady lay.now group row.old }
    ensures moved { IsRewritten lay.now (call_tree lay.now)
        step.now gone.now row.old row.new result }
    ensures rest { (n : ℕ) → HasRoom lay.now group n → drop n row.new ≡ drop n row.old }
{
    let mut array = [Actual::Number(0); 8];
    match call_body(lay, group, row, &mut array) {
        Some(body) => {
            let actuals = &array[..body.count];
            let (_, region) = row.split_at_mut(1 + body.count);
            let moved = advance(lay, body.root, actuals, region, step, gone);
            match moved.tail {
                None => Visited {
                    tick: moved.tick,
                    dead: moved.dead,
                    settled: moved.settled,
                },
                Some(call) => Visited {
                    tick: moved.tick,
                    dead: call_opened(lay, group, call.member, call.args, actuals, row, gone),
                    settled: false,
                },
            }
        }
        None => Visited {
            tick: false,
            dead: false,
            settled: true,
        },
    }
}

/// A delayed.
#[cycle(advance)]
fn advance_lag<'s>(
    lay: &Layout<'s>,
    a: &'s Expr,
    m: u32,
    d: &'s Expr,
    actuals: &[Actual],
    row: &mut [u64],
    step: &ClockSet,
    gone: &ClockSet,
) -> Moved<'s>
    requires some { 1 ≤ m }
    requires short { m ≤ MAX_DELAY }
    requires ready { AreReady lay.now (2 + words_of m) a.now d.now actuals.now row.old }
    ensures moved { IsAdvanced lay.now actuals.now
        (pair_tree lay.now (lag_node m) (2 + words_of m) a.now d.now actuals.now)
        (pair_size lay.now (2 + words_of m) a.now d.now)
        step.now gone.now row.old row.new result }
    ensures tail { result.tail ≡ None }
{
    let (head, rest) = row.split_at_mut(lag_cells(m));
    let left = advance(lay, a, actuals, rest, step, gone);
    let (_, behind) = rest.split_at_mut(left.size);
    let right = advance(lay, d, actuals, behind, step, gone);
    let tick = lag_ticks(m, head, right.tick);
    lag_moved(m, head, left.tick, right.tick);
    Moved {
        tick,
        dead: lag_dead(m, head, left.dead, right.dead),
        settled: left.settled & right.settled,
        size: lag_cells(m) + left.size + right.size,
        tail: None,
    }
}
