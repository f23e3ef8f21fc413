//! The region of an expression at its birth.

ghost use Rattle.std.specs.Prelude.{◌≡◌, ◌≤◌, ◌+◌, ℕ, false, true, drop, length, replicate, Some};
ghost use Rattle.ccsl_kernel.specs.Syntax.{ECall};
ghost use Rattle.ccsl_kernel.specs.Plain.{plain_expr};
ghost use Rattle.ccsl_state.specs.Tree.{TOne, TThen, Lagging, two_opened, opening, dead_of};
ghost use Rattle.ccsl_state.specs.Layout.{words_of, own_cells, two_at};
ghost use Rattle.ccsl_state.specs.Standing.{is_own};
ghost use Rattle.ccsl_state.specs.Nodes.{one_at};
ghost use Rattle.ccsl_state.specs.Moves.{gone_in};
ghost use Rattle.ccsl_state.specs.Regions.{tree, call_tree, one_tree, pair_tree, then_tree, lag_node, size, pair_size};
ghost use Rattle.ccsl_state.specs.Regions.{choice_size, newborn, newborn_pair, HasRoomFor};
ghost use Rattle.ccsl_state.specs.Ready.{IsReady, AreReady, IsBirthReady};
ghost use Rattle.ccsl_state.specs.Walks.{IsOpened};

use crate::cells::{is_then, own_cells, size_of};
use crate::lag::{lag_born, lag_cells, lag_dead};
use crate::layout::Layout;
use crate::moved::Born;
use crate::name::is_gone;
use crate::node::{Unary, filter_from, two_born, two_dead};
use crate::params::{store, values};
use ccsl_base::{ClockSet, MAX_DELAY};
use ccsl_kernel::{Actual, Expr, ExprOp, Value};

/// Writes the region of an expression at its birth, and tells whether it is dead there.
#[cycle(open)]
pub fn opened(
    lay: &Layout<'_>,
    e: &Expr,
    actuals: &[Actual],
    row: &mut [u64],
    gone: &ClockSet,
) -> Born
    requires ready { IsReady lay.now false 0 e.now actuals.now row.old }
    requires placed { is_own lay.now.system.now.words (length lay.now.earlier.now)
        (plain_expr e.now) actuals.now ≡ false }
    ensures { IsOpened (tree lay.now e.now actuals.now) (size lay.now e.now)
        (newborn lay.now e.now actuals.now) gone.now row.old row.new result }
{
    match e {
        Expr::Name(place) => Born {
            dead: is_gone(place.actual(actuals), gone),
            size: 1,
        },
        Expr::Call {
            group,
            member,
            args,
        } => {
            let inner = lay.before(*group);
            Born {
                dead: call_opened(&inner, *group, *member, args.members(), actuals, row, gone),
                size: lay.earlier[*group as usize] as usize,
            }
        }
        Expr::Never => Born {
            dead: false,
            size: 1,
        },
        Expr::Binary(op, a, d) => {
            if is_then(*op) {
                then_opened(lay, a, d, actuals, row, gone)
            } else {
                two_opened(lay, *op, a, d, actuals, row, gone)
            }
        }
        Expr::Delay(a, m) => {
            let unary = Unary::Delay(m.number(actuals));
            one_opened(lay, unary, 0, a, actuals, row, gone)
        }
        Expr::Await(a, m) => {
            let unary = Unary::Await(m.number(actuals));
            one_opened(lay, unary, 0, a, actuals, row, gone)
        }
        Expr::Filter(a, word) => {
            let words = lay.system.words();
            let suffix = word.suffix(words, actuals);
            let unary = filter_from(words, suffix);
            one_opened(lay, unary, suffix.offset, a, actuals, row, gone)
        }
        Expr::Delayed(a, m, d) => lag_opened(lay, a, *m, d, actuals, row, gone),
        Expr::If(test, a, d) => {
            let (_, rest) = row.split_at_mut(1);
            if test.holds(lay.system.words(), actuals) {
                let born = opened(lay, a, actuals, rest, gone);
                let size = 1 + born.size.max(size_of(d, lay.earlier));
                Born { size, ..born }
            } else {
                let born = opened(lay, d, actuals, rest, gone);
                let size = 1 + born.size.max(size_of(a, lay.earlier));
                Born { size, ..born }
            }
        }
    }
}

/// An operator of one operand.
#[cycle(open)]
fn one_opened(
    lay: &Layout<'_>,
    unary: Unary,
    first: u64,
    a: &Expr,
    actuals: &[Actual],
    row: &mut [u64],
    gone: &ClockSet,
) -> Born
    requires { IsReady lay.now true 1 a.now actuals.now row.old }
    ensures { IsOpened (one_tree lay.now unary a.now actuals.now) (1 + size lay.now a.now)
        (TOne (one_at lay.now.system.now.words unary first) (newborn lay.now a.now actuals.now))
        gone.now row.old row.new result }
{
    let (head, rest) = row.split_at_mut(1);
    head[0] = first;
    let born = opened(lay, a, actuals, rest, gone);
    Born {
        dead: unary.is_dead(lay.system.words(), first, born.dead),
        size: 1 + born.size,
    }
}

/// An operator of two operands.
#[cycle(open)]
fn two_opened(
    lay: &Layout<'_>,
    op: ExprOp,
    a: &Expr,
    d: &Expr,
    actuals: &[Actual],
    row: &mut [u64],
    gone: &ClockSet,
) -> Born
    requires { AreReady lay.now (own_cells op) a.now d.now actuals.now row.old }
    ensures { IsOpened (pair_tree lay.now (two_at op) (own_cells op) a.now d.now actuals.now)
        (pair_size lay.now (own_cells op) a.now d.now)
        (newborn_pair lay.now (two_opened op) a.now d.now actuals.now)
        gone.now row.old row.new result }
{
    let (head, rest) = row.split_at_mut(own_cells(op));
    two_born(op, head);
    let left = opened(lay, a, actuals, rest, gone);
    let (_, behind) = rest.split_at_mut(left.size);
    let right = opened(lay, d, actuals, behind, gone);
    Born {
        dead: two_dead(op, head, left.dead, right.dead),
        size: own_cells(op) + left.size + right.size,
    }
}

/// A then: its left operand.
#[cycle(open)]
fn then_opened(
    lay: &Layout<'_>,
    a: &Expr,
    d: &Expr,
    actuals: &[Actual],
    row: &mut [u64],
    gone: &ClockSet,
) -> Born
    requires left { IsReady lay.now true 1 a.now actuals.now row.old }
    requires right { IsReady lay.now false 1 d.now actuals.now row.old }
    ensures { IsOpened (then_tree lay.now a.now d.now actuals.now)
        (choice_size lay.now a.now d.now)
        (TThen (newborn lay.now a.now actuals.now) (plain_expr d.now) actuals.now)
        gone.now row.old row.new result }
{
    let (head, rest) = row.split_at_mut(1);
    head[0] = 0;
    let born = opened(lay, a, actuals, rest, gone);
    Born {
        dead: false,
        size: 1 + born.size.max(size_of(d, lay.earlier)),
    }
}

/// The region of a call to the group behind all that `lay` has: the member, its parameters, its body. The values are
/// computed before a cell is written.
#[cycle(open)]
pub fn call_opened(
    lay: &Layout<'_>,
    group: u32,
    member: u32,
    args: &[Value],
    actuals: &[Actual],
    row: &mut [u64],
    gone: &ClockSet,
) -> bool
    requires { IsBirthReady lay.now group member args.now actuals.now row.old }
    ensures tree { call_tree lay.now row.new ≡
        opening lay.now.system.now (ECall group member args.now) actuals.now }
    ensures rest { (n : ℕ) → HasRoomFor lay.now group member n → drop n row.new ≡ drop n row.old }
    ensures dead { result ≡ dead_of (gone_in gone.now)
        (opening lay.now.system.now (ECall group member args.now) actuals.now) }
{
    let words = lay.system.words();
    match lay.system.body(group, member) {
        Some(body) => {
            let mut array = [Actual::Number(0); 8];
            let inner = &mut array[..args.len()];
            values(words, args, actuals, inner);
            let (first, rest) = row.split_at_mut(1);
            first[0] = u64::from(member);
            let (cells, region) = rest.split_at_mut(args.len());
            store(words, inner, cells);
            opened(lay, &body.root, inner, region, gone).dead
        }
        None => false,
    }
}

/// A delayed.
#[cycle(open)]
fn lag_opened(
    lay: &Layout<'_>,
    a: &Expr,
    m: u32,
    d: &Expr,
    actuals: &[Actual],
    row: &mut [u64],
    gone: &ClockSet,
) -> Born
    requires some { 1 ≤ m }
    requires short { m ≤ MAX_DELAY }
    requires ready { AreReady lay.now (2 + words_of m) a.now d.now actuals.now row.old }
    ensures { IsOpened (pair_tree lay.now (lag_node m) (2 + words_of m) a.now d.now actuals.now)
        (pair_size lay.now (2 + words_of m) a.now d.now)
        (newborn_pair lay.now (Some (Lagging m (replicate m false))) a.now d.now actuals.now)
        gone.now row.old row.new result }
{
    let (head, rest) = row.split_at_mut(lag_cells(m));
    lag_born(m, head);
    let left = opened(lay, a, actuals, rest, gone);
    let (_, behind) = rest.split_at_mut(left.size);
    let right = opened(lay, d, actuals, behind, gone);
    Born {
        dead: lag_dead(m, head, left.dead, right.dead),
        size: lag_cells(m) + left.size + right.size,
    }
}
