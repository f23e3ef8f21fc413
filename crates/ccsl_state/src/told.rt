//! The formula of an expression, from its region.

ghost use Rattle.std.specs.Prelude.{◌≡◌, ◌≤◌, ◌+◌, false, true, length, IfOk, if◌then◌else◌};
ghost use Rattle.ccsl_formula.specs.Formula.{Formula as Plain, FFalse};
ghost use Rattle.ccsl_formula.specs.Plain.{plain};
ghost use Rattle.ccsl_state.specs.Tree.{leaf, formula_of, one_formula};
ghost use Rattle.ccsl_state.specs.Layout.{words_of, own_cells, two_at};
ghost use Rattle.ccsl_state.specs.Nodes.{one_at, node_formula};
ghost use Rattle.ccsl_state.specs.Regions.{tree, call_tree, left_tree, one_tree, pair_tree, lag_node, size, pair_size, choice_size};
ghost use Rattle.ccsl_state.specs.Ready.{IsReady, AreReady, IsCallReady};
ghost use Rattle.ccsl_state.specs.Walks.{IsTold};

use crate::call::call_body;
use crate::cells::{count_at, is_then, own_cells, size_of};
use crate::connective::{and, not, or};
use crate::lag::{lag_cells, lag_ticks};
use crate::layout::Layout;
use crate::node::{Unary, filter_from};
use ccsl_base::{MAX_DELAY, Memory};
use ccsl_formula::Formula;
use ccsl_kernel::{Actual, Expr, ExprOp};
use ccsl_words::Word;
use std::alloc::Global;

/// A formula, and how many cells its region has.
#[derive(Drop)]
pub struct Part {
    pub formula: Formula,
    pub size: usize,
}

fn name_formula(actual: Actual) -> Formula
    ensures { plain result ≡ formula_of (leaf actual) }
{
    match actual {
        Actual::Clock(x) => Formula::Var(x),
        Actual::Number(_) | Actual::Word(_, _) => Formula::False,
    }
}

/// Whether an operator of one operand lets its operand's formula through.
fn is_open(unary: Unary, words: &[Word], cell: u64) -> bool
    ensures { (f : Plain) →
        one_formula (one_at words.now unary cell) f ≡ (if result then f else FFalse) }
{
    unary.ticks(words, cell, true)
}

fn through(lets: bool, f: Formula) -> Formula
    ensures { plain result ≡ (if lets then plain f else FFalse) }
{
    if lets { f } else { Formula::False }
}

/// The formula of an operator, from its cells and its operands' formulas.
fn joined(
    alloc: Global,
    op: ExprOp,
    head: &[u64],
    f: Formula,
    g: Formula,
) -> Result<Formula, Memory>
    requires { own_cells op ≤ length head.now }
    ensures { IfOk result (λ r. plain r ≡ node_formula (two_at op head.now) (plain f) (plain g)) }
{
    match op {
        ExprOp::Union => or(alloc, f, g),
        ExprOp::Inter => and(alloc, f, g),
        ExprOp::Minus => and(alloc, f, not(alloc, g)?),
        ExprOp::Inf => {
            let (a, d) = (count_at(head[0]), count_at(head[1]));
            if d < a {
                Ok(f)
            } else if a < d {
                Ok(g)
            } else {
                or(alloc, f, g)
            }
        }
        ExprOp::Sup => {
            let (a, d) = (count_at(head[0]), count_at(head[1]));
            if a < d {
                Ok(f)
            } else if d < a {
                Ok(g)
            } else {
                and(alloc, f, g)
            }
        }
        ExprOp::Upto => {
            if head[0] != 0 {
                Ok(Formula::False)
            } else {
                and(alloc, f, not(alloc, g)?)
            }
        }
        ExprOp::UptoWeakly => Ok(through(head[0] == 0, f)),
        ExprOp::Then => Ok(Formula::False),
        ExprOp::Sampled => Ok(through(head[0] != 0, g)),
        ExprOp::SampledWeakly => {
            if head[0] != 0 {
                Ok(g)
            } else {
                and(alloc, g, f)
            }
        }
    }
}

/// The formula that an expression asks of the next step, read from its region of a row. It is as large as the tree
/// that is left of the expression.
#[cycle(tell)]
pub fn told(
    alloc: Global,
    lay: &Layout<'_>,
    e: &Expr,
    actuals: &[Actual],
    row: &[u64],
) -> Result<Part, Memory>
    requires { IsReady lay.now false 0 e.now actuals.now row.now }
    ensures { IfOk result
        (IsTold (tree lay.now e.now actuals.now row.now) (size lay.now e.now)) }
{
    match e {
        Expr::Name(place) => Ok(Part {
            formula: name_formula(place.actual(actuals)),
            size: 1,
        }),
        Expr::Call { group, .. } => {
            if (*group as usize) < lay.earlier.len() {
                let inner = lay.before(*group);
                Ok(Part {
                    formula: call_told(alloc, &inner, *group, row)?,
                    size: lay.earlier[*group as usize] as usize,
                })
            } else {
                Ok(Part {
                    formula: Formula::False,
                    size: 0,
                })
            }
        }
        Expr::Never => Ok(Part {
            formula: Formula::False,
            size: 1,
        }),
        Expr::Binary(op, a, d) => {
            if !is_then(*op) {
                two_told(alloc, lay, *op, a, d, actuals, row)
            } else if row[0] == 0 {
                one_of_told(alloc, lay, a, d, actuals, row)
            } else {
                one_of_told(alloc, lay, d, a, actuals, row)
            }
        }
        Expr::Delay(a, m) => one_told(alloc, lay, Unary::Delay(m.number(actuals)), a, actuals, row),
        Expr::Await(a, m) => one_told(alloc, lay, Unary::Await(m.number(actuals)), a, actuals, row),
        Expr::Filter(a, word) => {
            let words = lay.system.words();
            let unary = filter_from(words, word.suffix(words, actuals));
            one_told(alloc, lay, unary, a, actuals, row)
        }
        Expr::Delayed(a, m, d) => lag_told(alloc, lay, a, *m, d, actuals, row),
        Expr::If(test, a, d) => {
            if test.holds(lay.system.words(), actuals) {
                one_of_told(alloc, lay, a, d, actuals, row)
            } else {
                one_of_told(alloc, lay, d, a, actuals, row)
            }
        }
    }
}

/// An operator of one operand.
#[cycle(tell)]
fn one_told(
    alloc: Global,
    lay: &Layout<'_>,
    unary: Unary,
    a: &Expr,
    actuals: &[Actual],
    row: &[u64],
) -> Result<Part, Memory>
    requires { IsReady lay.now true 1 a.now actuals.now row.now }
    ensures { IfOk result
        (IsTold (one_tree lay.now unary a.now actuals.now row.now) (1 + size lay.now a.now)) }
{
    let inner = told(alloc, lay, a, actuals, &row[1..])?;
    Ok(Part {
        formula: through(is_open(unary, lay.system.words(), row[0]), inner.formula),
        size: 1 + inner.size,
    })
}

/// An operator of two operands.
#[cycle(tell)]
fn two_told(
    alloc: Global,
    lay: &Layout<'_>,
    op: ExprOp,
    a: &Expr,
    d: &Expr,
    actuals: &[Actual],
    row: &[u64],
) -> Result<Part, Memory>
    requires { AreReady lay.now (own_cells op) a.now d.now actuals.now row.now }
    ensures { IfOk result
        (IsTold (pair_tree lay.now (two_at op) (own_cells op) a.now d.now actuals.now row.now)
        (pair_size lay.now (own_cells op) a.now d.now)) }
{
    let own = own_cells(op);
    let left = told(alloc, lay, a, actuals, &row[own..])?;
    let size = own + left.size;
    let right = told(alloc, lay, d, actuals, &row[size..])?;
    Ok(Part {
        formula: joined(alloc, op, row, left.formula, right.formula)?,
        size: size + right.size,
    })
}

/// A delayed.
#[cycle(tell)]
fn lag_told(
    alloc: Global,
    lay: &Layout<'_>,
    a: &Expr,
    m: u32,
    d: &Expr,
    actuals: &[Actual],
    row: &[u64],
) -> Result<Part, Memory>
    requires some { 1 ≤ m }
    requires short { m ≤ MAX_DELAY }
    requires ready { AreReady lay.now (2 + words_of m) a.now d.now actuals.now row.now }
    ensures { IfOk result
        (IsTold (pair_tree lay.now (lag_node m) (2 + words_of m) a.now d.now actuals.now row.now)
        (pair_size lay.now (2 + words_of m) a.now d.now)) }
{
    let own = lag_cells(m) + size_of(a, lay.earlier);
    let right = told(alloc, lay, d, actuals, &row[own..])?;
    Ok(Part {
        formula: through(lag_ticks(m, row, true), right.formula),
        size: own + right.size,
    })
}

/// The operand that lives, where two share the cells behind the first one.
#[cycle(tell)]
fn one_of_told(
    alloc: Global,
    lay: &Layout<'_>,
    e: &Expr,
    other: &Expr,
    actuals: &[Actual],
    row: &[u64],
) -> Result<Part, Memory>
    requires ready { IsReady lay.now false 1 e.now actuals.now row.now }
    requires other { IsReady lay.now false 1 other.now actuals.now row.now }
    ensures { IfOk result (IsTold (left_tree lay.now e.now actuals.now 1 row.now)
        (choice_size lay.now e.now other.now)) }
{
    let part = told(alloc, lay, e, actuals, &row[1..])?;
    Ok(Part {
        formula: part.formula,
        size: 1 + part.size.max(size_of(other, lay.earlier)),
    })
}

/// The formula of a call to the group behind all that `lay` has.
#[cycle(tell)]
fn call_told(alloc: Global, lay: &Layout<'_>, group: u32, row: &[u64]) -> Result<Formula, Memory>
    requires { IsCallReady lay.now group row.now }
    ensures { IfOk result (λ f. plain f ≡ formula_of (call_tree lay.now row.now)) }
{
    let mut actuals = [Actual::Number(0); 8];
    match call_body(lay, group, row, &mut actuals) {
        Some(body) => {
            let region = &row[1 + body.count..];
            let inner = told(alloc, lay, body.root, &actuals[..body.count], region)?;
            Ok(inner.formula)
        }
        None => Ok(Formula::False),
    }
}
