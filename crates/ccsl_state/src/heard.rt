//! Whether an expression ticks in a step, from its region.

ghost use Rattle.std.specs.Prelude.{◌≡◌, ◌≤◌, ◌+◌, false, true};
ghost use Rattle.ccsl_state.specs.Layout.{words_of, own_cells, two_at};
ghost use Rattle.ccsl_state.specs.Regions.{tree, call_tree, left_tree, one_tree, pair_tree, lag_node, size, pair_size, choice_size, ticks};
ghost use Rattle.ccsl_state.specs.Ready.{IsReady, AreReady, IsCallReady};
ghost use Rattle.ccsl_state.specs.Walks.{IsHeard};

use crate::call::call_body;
use crate::cells::{is_then, own_cells, size_of};
use crate::lag::{lag_cells, lag_ticks};
use crate::layout::Layout;
use crate::moved::Heard;
use crate::name::name_ticks;
use crate::node::{Unary, filter_from, two_ticks};
use ccsl_base::{ClockSet, MAX_DELAY};
use ccsl_kernel::{Actual, Expr, ExprOp};

/// Whether an expression ticks, and how many cells its region has.
#[cycle(hear)]
pub fn heard(lay: &Layout<'_>, e: &Expr, actuals: &[Actual], row: &[u64], step: &ClockSet) -> Heard
    requires { IsReady lay.now false 0 e.now actuals.now row.now }
    ensures { IsHeard (tree lay.now e.now actuals.now row.now)
        (size lay.now e.now) step.now result }
{
    match e {
        Expr::Name(place) => Heard {
            tick: name_ticks(place.actual(actuals), step),
            size: 1,
        },
        Expr::Call { group, .. } => {
            if (*group as usize) < lay.earlier.len() {
                let inner = lay.before(*group);
                Heard {
                    tick: call_heard(&inner, *group, row, step),
                    size: lay.earlier[*group as usize] as usize,
                }
            } else {
                Heard {
                    tick: false,
                    size: 0,
                }
            }
        }
        Expr::Never => Heard {
            tick: false,
            size: 1,
        },
        Expr::Binary(op, a, d) => {
            if !is_then(*op) {
                two_heard(lay, *op, a, d, actuals, row, step)
            } else if row[0] == 0 {
                one_of_heard(lay, a, d, actuals, row, step)
            } else {
                one_of_heard(lay, d, a, actuals, row, step)
            }
        }
        Expr::Delay(a, m) => one_heard(lay, Unary::Delay(m.number(actuals)), a, actuals, row, step),
        Expr::Await(a, m) => one_heard(lay, Unary::Await(m.number(actuals)), a, actuals, row, step),
        Expr::Filter(a, word) => {
            let words = lay.system.words();
            let unary = filter_from(words, word.suffix(words, actuals));
            one_heard(lay, unary, a, actuals, row, step)
        }
        Expr::Delayed(a, m, d) => lag_heard(lay, a, *m, d, actuals, row, step),
        Expr::If(test, a, d) => {
            if test.holds(lay.system.words(), actuals) {
                one_of_heard(lay, a, d, actuals, row, step)
            } else {
                one_of_heard(lay, d, a, actuals, row, step)
            }
        }
    }
}

/// An operator of one operand.
#[cycle(hear)]
fn one_heard(
    lay: &Layout<'_>,
    unary: Unary,
    a: &Expr,
    actuals: &[Actual],
    row: &[u64],
    step: &ClockSet,
) -> Heard
    requires { IsReady lay.now true 1 a.now actuals.now row.now }
    ensures { IsHeard (one_tree lay.now unary a.now actuals.now row.now) (1 + size lay.now a.now)
        step.now result }
{
    let inner = heard(lay, a, actuals, &row[1..], step);
    Heard {
        tick: unary.ticks(lay.system.words(), row[0], inner.tick),
        size: 1 + inner.size,
    }
}

/// An operator of two operands.
#[cycle(hear)]
fn two_heard(
    lay: &Layout<'_>,
    op: ExprOp,
    a: &Expr,
    d: &Expr,
    actuals: &[Actual],
    row: &[u64],
    step: &ClockSet,
) -> Heard
    requires { AreReady lay.now (own_cells op) a.now d.now actuals.now row.now }
    ensures { IsHeard (pair_tree lay.now (two_at op) (own_cells op) a.now d.now actuals.now row.now)
        (pair_size lay.now (own_cells op) a.now d.now) step.now result }
{
    let own = own_cells(op);
    let left = heard(lay, a, actuals, &row[own..], step);
    let right = heard(lay, d, actuals, &row[own + left.size..], step);
    Heard {
        tick: two_ticks(op, row, left.tick, right.tick),
        size: own + left.size + right.size,
    }
}

/// A delayed.
#[cycle(hear)]
fn lag_heard(
    lay: &Layout<'_>,
    a: &Expr,
    m: u32,
    d: &Expr,
    actuals: &[Actual],
    row: &[u64],
    step: &ClockSet,
) -> Heard
    requires some { 1 ≤ m }
    requires short { m ≤ MAX_DELAY }
    requires ready { AreReady lay.now (2 + words_of m) a.now d.now actuals.now row.now }
    ensures { IsHeard
        (pair_tree lay.now (lag_node m) (2 + words_of m) a.now d.now actuals.now row.now)
        (pair_size lay.now (2 + words_of m) a.now d.now) step.now result }
{
    let own = lag_cells(m) + size_of(a, lay.earlier);
    let right = heard(lay, d, actuals, &row[own..], step);
    Heard {
        tick: lag_ticks(m, row, right.tick),
        size: own + right.size,
    }
}

/// The operand that lives, where two share the cells behind the first one.
#[cycle(hear)]
fn one_of_heard(
    lay: &Layout<'_>,
    e: &Expr,
    other: &Expr,
    actuals: &[Actual],
    row: &[u64],
    step: &ClockSet,
) -> Heard
    requires ready { IsReady lay.now false 1 e.now actuals.now row.now }
    requires other { IsReady lay.now false 1 other.now actuals.now row.now }
    ensures { IsHeard (left_tree lay.now e.now actuals.now 1 row.now)
        (choice_size lay.now e.now other.now) step.now result }
{
    let part = heard(lay, e, actuals, &row[1..], step);
    Heard {
        tick: part.tick,
        size: 1 + part.size.max(size_of(other, lay.earlier)),
    }
}

/// Whether a call to the group behind all that `lay` has ticks.
#[cycle(hear)]
fn call_heard(lay: &Layout<'_>, group: u32, row: &[u64], step: &ClockSet) -> bool
    requires { IsCallReady lay.now group row.now }
    ensures { result ≡ ticks (call_tree lay.now row.now) step.now }
{
    let mut actuals = [Actual::Number(0); 8];
    match call_body(lay, group, row, &mut actuals) {
        Some(body) => {
            let region = &row[1 + body.count..];
            heard(lay, body.root, &actuals[..body.count], region, step).tick
        }
        None => false,
    }
}
