//! Conflicts: why some values can't all hold.

ghost use Rattle.std.specs.Prelude.{◌≡◌, ◌≢◌, ℕ, length, reverse, IfOk, OnOk};
ghost use Rattle.ccsl_formula.specs.declared.truth3.Truth3.TheVariants.{Open};
ghost use Rattle.ccsl_formula.specs.Truth.{Part};
ghost use Rattle.ccsl_formula.specs.Known.{known, with_truth, joined};
ghost use Rattle.ccsl_solve.specs.Under.{Under, IsInside, with_lit, negated};
ghost use Rattle.ccsl_solve.specs.Conflict.{IsClause, IsConflictOf, IsConflictWith, IsDenial, AddsLines};
ghost use Rattle.ccsl_solve.specs.Posed.{AreValid};

use ccsl_base::{Memory, Seq};
use ccsl_formula::Partial;
use ccsl_guide::Problem;
use ccsl_refute::{Line, Lit};
use std::alloc::Global;

/// Some values that can't all hold, and the numbers of the lines that show it, the last one first.
pub struct Conflict {
    pub part: Box<Partial>,
    pub hints: Vec<u64>,
}

// By hand and not derived: to the prover, an early return then drops one by a single call.
impl Drop for Conflict {
    fn drop(self) {
        let Conflict { part: _, hints: _ } = self;
    }
}

impl Conflict {
    /// The clash with a line that shows the conflict.
    pub fn into_clash(self, line: u64) -> Clash
        ensures line { result.line ≡ line }
        ensures part { known result.part.value ≡ known self.part.value }
    {
        let Conflict { part, hints: _ } = self;
        Clash { line, part }
    }
}

/// A line whose clause says that not all values of `part` hold.
#[derive(Drop)]
pub struct Clash {
    pub line: u64,
    pub part: Box<Partial>,
}

/// The literals that say that not all values of `part` hold.
pub fn denial(alloc: Global, part: &Partial) -> Result<Vec<Lit>, Memory>
    ensures { (n : ℕ) → IsInside n (known part.now) →
        IfOk result (λ v. IsDenial n v.items (known part.now)) }
{
    let mut lits = Vec::new(alloc);
    for (clock, value) in part.pairs() {
        lits.push(Lit {
            clock,
            positive: !value,
        })?;
    }
    Ok(lits)
}

/// Takes over each value of another partial assignment, but none of one clock.
fn join_without(part: &mut Partial, other: &Partial, clock: u32)
    ensures { known part.new ≡ with_truth (joined (known part.old) (known other.now)) clock Open }
{
    part.join(other);
    part.forget(clock);
}

/// The same numbers in reversed order.
fn reversed(alloc: Global, numbers: &[u64]) -> Result<Vec<u64>, Memory>
    ensures { IfOk result (λ v. v.items ≡ reverse numbers.now) }
{
    let reversed = numbers.iter().rev().copied().collect(alloc)?;
    Ok(reversed)
}

/// The number of a new last line whose clause says that not all values of the conflict hold.
pub fn derived(problem: &Problem, lines: &mut Vec<Line>, conflict: &Conflict) -> Result<u64, Memory>
    requires valid { AreValid problem.now lines.old.items }
    requires inside { IsInside problem.now.scope.named (known conflict.now.part.value) }
    requires conflict { (p : Part) × IsConflictOf problem.now lines.old.items p conflict.now }
    ensures lines { OnOk result (AddsLines problem.now lines.old.items lines.new.items) }
    ensures clause { IfOk result
        (λ j. IsClause problem.now.scope lines.new.items j (known conflict.now.part.value)) }
    ensures last { IfOk result (λ j. j ≡ length lines.new.items) }
{
    let lits = denial(problem.alloc, &conflict.part)?;
    let hints = reversed(problem.alloc, &conflict.hints)?;
    lines.push(Line::Derived(Seq::new(lits), Seq::new(hints)))?;
    Ok(lines.len() as u64)
}

/// The number of a line whose clause says that not all values of the conflict hold.
pub fn learned(problem: &Problem, lines: &mut Vec<Line>, conflict: &Conflict) -> Result<u64, Memory>
    requires valid { AreValid problem.now lines.old.items }
    requires inside { IsInside problem.now.scope.named (known conflict.now.part.value) }
    requires conflict { (p : Part) × IsConflictOf problem.now lines.old.items p conflict.now }
    ensures lines { OnOk result (AddsLines problem.now lines.old.items lines.new.items) }
    ensures clause { IfOk result
        (λ j. IsClause problem.now.scope lines.new.items j (known conflict.now.part.value)) }
{
    if conflict.hints.len() == 1 {
        return Ok(conflict.hints[0]);
    }
    derived(problem, lines, conflict)
}

/// The conflict before a clock had a value, from one at each value, where a line shows the first one.
pub fn resolved(
    problem: &Problem,
    lines: &[Line],
    before: &Partial,
    lit: Lit,
    first: Clash,
    second: Conflict,
) -> Result<Conflict, Memory>
    requires first { Under (known first.part.value) (with_lit (known before.now) lit) }
    requires first_uses { known first.part.value lit.clock ≢ Open }
    requires clause { IsClause problem.now.scope lines.now first.line (known first.part.value) }
    requires second { IsConflictWith problem.now lines.now (known before.now) (negated lit) second }
    requires free { known before.now lit.clock ≡ Open }
    ensures { IfOk result (IsConflictOf problem.now lines.now (known before.now)) }
{
    let mut conflict = second;
    join_without(&mut conflict.part, &first.part, lit.clock);
    conflict.hints.push(first.line)?;
    Ok(conflict)
}
