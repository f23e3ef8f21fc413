//! The slow evaluation of an item's formula, over a whole list of steps.

ghost use Rattle.std.specs.Prelude.{◌≡◌, ◌<◌, ◌≤◌, ◌^◌, IfOk, length, if◌then◌else◌};
ghost use Rattle.ccsl_formula.specs.Formula.{FTrue, FVar, FNot, FOr};
ghost use Rattle.ccsl_formula.specs.Plain.{plain};
ghost use Rattle.ccsl_kernel.specs.Syntax.{item_count};
ghost use Rattle.ccsl_kernel.specs.Items.{clock_count, constraint_formula, item_formula};
ghost use Rattle.ccsl_plain.specs.Columns.{columns};

use crate::deaths::Deaths;
use crate::walk::followed;
use ccsl_base::{ClockSet, Memory, Seq};
use ccsl_formula::Formula;
use ccsl_kernel::{Constraint, RelationKind, System};
use std::alloc::Global;

/// The formula of an item at the step after `steps`, as the tables of expressions and of relations give it, with
/// nothing folded. Each expression is followed from its birth on with all its operands' ticks. At each step it looks
/// once at each operator that lives then, in the item and in the definitions before it, and at all ticks so far of that
/// operator's operands: the time goes by the number of these operators and by the square of the number of steps.
pub fn plain_formula(
    alloc: Global,
    system: &System,
    item: u32,
    steps: &[ClockSet],
) -> Result<Formula, Memory>
    requires { item < item_count system.now }
    ensures { IfOk result (λ f.
        plain f ≡ item_formula system.now steps.now (length steps.now) item) }
{
    let definitions = system.definitions();
    if item < definitions {
        definition_formula(alloc, system, item, steps)
    } else {
        constraint_formula(alloc, system.constraint(item - definitions), steps)
    }
}

// The formula of the definition of clock number `declared + i`.
fn definition_formula(
    alloc: Global,
    system: &System,
    i: u32,
    list: &[ClockSet],
) -> Result<Formula, Memory>
    requires { i < length system.now.definitions }
    ensures { IfOk result (λ f. plain f ≡ item_formula system.now list.now (length list.now) i) }
{
    let columns = deaths_before(alloc, system, i, list)?;
    let declared = system.scope().declared;
    let deaths = Deaths {
        declared,
        columns: &columns,
    };
    let walk = followed(alloc, system, system.definition(i), list, &deaths)?;
    let asked = walk.course.formula(alloc, system.words())?;
    let clock = Box::new(alloc, Formula::Var(declared + i))?;
    Ok(Formula::Iff(clock, Box::new(alloc, asked)?))
}

// When each of the first `count` defined clocks is dead.
fn deaths_before(
    alloc: Global,
    system: &System,
    count: u32,
    list: &[ClockSet],
) -> Result<Vec<Seq<bool>>, Memory>
    requires { count ≤ length system.now.definitions }
    ensures { IfOk result (λ v. v.items ≡ columns system.now list.now count) }
{
    let declared = system.scope().declared;
    let mut columns = Vec::with_capacity(alloc, count as usize)?;
    for i in 0..count {
        let deaths = Deaths {
            declared,
            columns: &columns,
        };
        let walk = followed(alloc, system, system.definition(i), list, &deaths)?;
        columns.push(Seq::new(walk.deaths))?;
    }
    Ok(columns)
}

// The formula of a constraint after a list of steps.
fn constraint_formula(
    alloc: Global,
    constraint: &Constraint,
    list: &[ClockSet],
) -> Result<Formula, Memory>
    ensures { IfOk result (λ f.
        plain f ≡ constraint_formula list.now (length list.now) constraint.now) }
{
    let (a, b) = (constraint.left, constraint.right);
    let (left, right) = (clock_count(list, a), clock_count(list, b));
    match constraint.kind {
        RelationKind::Subclock => implies(alloc, a, b),
        RelationKind::Coincides => {
            let left = Box::new(alloc, Formula::Var(a))?;
            Ok(Formula::Iff(left, Box::new(alloc, Formula::Var(b))?))
        }
        RelationKind::Excludes => {
            let left = Box::new(alloc, Formula::Var(a))?;
            let both = Formula::And(left, Box::new(alloc, Formula::Var(b))?);
            Ok(Formula::Not(Box::new(alloc, both)?))
        }
        RelationKind::Precedes => not_if(alloc, left == right, b),
        RelationKind::PrecedesWeakly => implies_if(alloc, left == right, b, a),
        RelationKind::PrecedesWithin(most) => {
            let waits = Box::new(alloc, not_if(alloc, left == right, b)?)?;
            let follows = implies_if(alloc, left >= right + u64::from(most), a, b)?;
            Ok(Formula::And(waits, Box::new(alloc, follows)?))
        }
    }
}

// That a clock does not tick, where a test is met.
fn not_if(alloc: Global, test: bool, clock: u32) -> Result<Formula, Memory>
    ensures { IfOk result (λ f. plain f ≡ (if test then FNot (FVar clock) else FTrue)) }
{
    if test {
        Ok(Formula::Not(Box::new(alloc, Formula::Var(clock))?))
    } else {
        Ok(Formula::True)
    }
}

// That a ticks with b alone.
fn implies(alloc: Global, a: u32, b: u32) -> Result<Formula, Memory>
    ensures { IfOk result (λ f. plain f ≡ FOr (FNot (FVar a)) (FVar b)) }
{
    let without = Formula::Not(Box::new(alloc, Formula::Var(a))?);
    let left = Box::new(alloc, without)?;
    Ok(Formula::Or(left, Box::new(alloc, Formula::Var(b))?))
}

// That a ticks with b alone, where a test is met.
fn implies_if(alloc: Global, test: bool, a: u32, b: u32) -> Result<Formula, Memory>
    ensures { IfOk result (λ f. plain f ≡ (if test then FOr (FNot (FVar a)) (FVar b) else FTrue)) }
{
    if test {
        implies(alloc, a, b)
    } else {
        Ok(Formula::True)
    }
}

// How often a clock ticks in a list of steps.
fn clock_count(list: &[ClockSet], x: u32) -> u64
    ensures number { result ≡ clock_count list.now x (length list.now) }
    ensures few { result < 2 ^ 63 }
{
    list.iter().filter(|step| step.has(x)).count() as u64
}
