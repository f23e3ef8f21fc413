//! The formulas of relations, from how often their clocks ticked.

ghost use Rattle.std.specs.Prelude.{◌≡◌, ◌+◌, IfOk, nat_le, if◌then◌else◌};
ghost use Rattle.ccsl_formula.specs.Formula.{FTrue, FVar, FNot, FOr};
ghost use Rattle.ccsl_formula.specs.Plain.{plain};
ghost use Rattle.ccsl_kernel.specs.Items.{relation_formula};

use crate::connective::{and, iff, not, or};
use ccsl_base::Memory;
use ccsl_formula::Formula;
use ccsl_kernel::RelationKind;
use std::alloc::Global;

/// The formula of a relation between the clocks `a` and `b`, which have ticked `m` and `n` times.
pub fn relation_formula(
    alloc: Global,
    kind: RelationKind,
    a: u32,
    b: u32,
    m: u64,
    n: u64,
) -> Result<Formula, Memory>
    ensures { IfOk result (λ f. plain f ≡ relation_formula kind a b m n) }
{
    match kind {
        RelationKind::Subclock => implies(alloc, a, b),
        RelationKind::Coincides => iff(alloc, Formula::Var(a), Formula::Var(b)),
        RelationKind::Excludes => not(alloc, and(alloc, Formula::Var(a), Formula::Var(b))?),
        RelationKind::Precedes => not_if(alloc, m == n, b),
        RelationKind::PrecedesWeakly => implies_if(alloc, m == n, b, a),
        RelationKind::PrecedesWithin(most) => {
            let waits = not_if(alloc, m == n, b)?;
            let follows = implies_if(alloc, is_ahead(m, n, most), a, b)?;
            and(alloc, waits, follows)
        }
    }
}

// Whether a count is ahead of another one by a number, or by more.
fn is_ahead(m: u64, n: u64, by: u32) -> bool
    ensures { result ≡ nat_le (n + by) m }
{
    n <= m && m - n >= u64::from(by)
}

// That a clock does not tick, where a test is met.
fn not_if(alloc: Global, test: bool, clock: u32) -> Result<Formula, Memory>
    ensures { IfOk result (λ f. plain f ≡ (if test then FNot (FVar clock) else FTrue)) }
{
    if test {
        not(alloc, Formula::Var(clock))
    } else {
        Ok(Formula::True)
    }
}

// That a ticks with b alone.
fn implies(alloc: Global, a: u32, b: u32) -> Result<Formula, Memory>
    ensures { IfOk result (λ f. plain f ≡ FOr (FNot (FVar a)) (FVar b)) }
{
    or(alloc, not(alloc, Formula::Var(a))?, Formula::Var(b))
}

// That a ticks with b alone, where a test is met.
fn implies_if(alloc: Global, test: bool, a: u32, b: u32) -> Result<Formula, Memory>
    ensures { IfOk result (λ f. plain f ≡ (if test then FOr (FNot (FVar a)) (FVar b) else FTrue)) }
{
    if test {
        implies(alloc, a, b)
    } else {
        Ok(Formula::True)
    }
}
