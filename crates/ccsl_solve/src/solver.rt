//! The answer for some formulas.

ghost use Rattle.std.specs.Prelude.{◌≡◌, ◌<◌, ◌≤◌, ◌^◌, ◌&&◌, ◌||◌, ◌∷◌, ℕ, List, map, length, reverse, nat_eq, IfOk, OnOk, true, false, []};
ghost use Rattle.ccsl_base.specs.Clocks.{ticks_in};
ghost use Rattle.ccsl_formula.specs.Known.{known};
ghost use Rattle.ccsl_formula.specs.Plain.{plain};
ghost use Rattle.ccsl_formula.specs.Truth.{Part};
ghost use Rattle.ccsl_refute.specs.Below.{AreBelow};
ghost use Rattle.ccsl_refute.specs.declared.line.Line.TheVariants.{Nonempty};
ghost use Rattle.ccsl_solve.specs.Under.{Under, IsInside, is_yes};
ghost use Rattle.ccsl_solve.specs.Posed.{AllBelow, IsPosed, IsSound, AreValid, asked};
ghost use Rattle.ccsl_solve.specs.Conflict.{IsConflictOf};
ghost use Rattle.ccsl_solve.specs.Finds.{Finds};
ghost use Rattle.ccsl_solve.specs.Answers.{Answers, AnswersBest, IsRefuted};

use crate::conflict::{Conflict, derived};
use crate::search::search;
use ccsl_base::{ClockSet, MAX_CLOCKS, Memory, Seq};
use ccsl_formula::{Formula, Partial, Scope, Truth3};
use ccsl_guide::{Guide, Problem};
use ccsl_refute::clause::positives;
use ccsl_refute::{Line, Lit};
use std::alloc::Global;

/// What the solver answers.
#[derive(Drop)]
pub enum Answer {
    /// A set of clocks as asked for.
    Step(ClockSet),
    /// There is none. The lines show it where no value was fixed.
    Refuted(Seq<Line>),
}

/// Adds a clock if it ticks.
fn tick(set: &mut ClockSet, part: &Partial, clock: u32)
    requires { clock < MAX_CLOCKS }
    ensures { (x : ℕ) → ticks_in x set.new ≡
        ((nat_eq x clock && is_yes (known part.now clock)) || ticks_in x set.old) }
{
    match part.value(clock) {
        Truth3::Yes => set.insert(clock),
        Truth3::No => {}
        Truth3::Open => {}
    }
}

/// The clocks that tick.
fn ticking(part: &Partial, named: u32) -> ClockSet
    requires { named ≤ MAX_CLOCKS }
    ensures below { (x : ℕ) → x < named → ticks_in x result ≡ is_yes (known part.now x) }
    ensures above { (x : ℕ) → named ≤ x → ticks_in x result ≡ false }
{
    let mut set = ClockSet::empty();
    for clock in 0..named {
        tick(&mut set, part, clock);
    }
    set
}

/// A set of named clocks with a declared member that agrees with `fixed` and satisfies all formulas, where there is
/// one.
pub fn solve(
    alloc: Global,
    formulas: &[Formula],
    scope: &Scope,
    fixed: &Partial,
) -> Result<Answer, Memory>
    requires declared { scope.now.declared ≤ scope.now.named }
    requires named { scope.now.named ≤ MAX_CLOCKS }
    requires reads { AllBelow scope.now.named (map plain formulas.now) }
    requires fixed { IsInside scope.now.named (known fixed.now) }
    requires few { length formulas.now < 2 ^ 32 }
    ensures { IfOk result
        (λ answer. Answers scope.now (map plain formulas.now) (known fixed.now) answer) }
{
    solve_by(alloc, formulas, scope, fixed, &[])
}

/// The best such set: of two of them, the better one has what is wished at the first wish for a clock at which they
/// differ.
pub fn solve_by(
    alloc: Global,
    formulas: &[Formula],
    scope: &Scope,
    fixed: &Partial,
    wishes: &[Lit],
) -> Result<Answer, Memory>
    requires declared { scope.now.declared ≤ scope.now.named }
    requires named { scope.now.named ≤ MAX_CLOCKS }
    requires reads { AllBelow scope.now.named (map plain formulas.now) }
    requires fixed { IsInside scope.now.named (known fixed.now) }
    requires few { length formulas.now < 2 ^ 32 }
    requires wishes { AreBelow scope.now.named wishes.now }
    ensures { IfOk result
        (λ answer. AnswersBest scope.now (map plain formulas.now) wishes.now
        (known fixed.now) answer) }
{
    let nonempty = positives(alloc, scope.declared)?;
    let problem = Problem {
        alloc,
        formulas,
        scope: *scope,
        nonempty: &nonempty,
        wishes,
    };
    answered(&problem, fixed)
}

/// The answer to a problem where some values are fixed.
fn answered(problem: &Problem, fixed: &Partial) -> Result<Answer, Memory>
    requires posed { IsPosed problem.now }
    requires fixed { IsInside problem.now.scope.named (known fixed.now) }
    ensures { IfOk result (AnswersBest
        problem.now.scope (asked problem.now) problem.now.wishes.now (known fixed.now)) }
{
    let mut lines = first_lines(problem.alloc)?;
    let mut part = fixed.copy();
    match searched(problem, &mut lines, &mut part)? {
        None => Ok(Answer::Step(ticking(&part, problem.scope.named))),
        Some(conflict) => {
            let lines = refutation(problem, lines, conflict)?;
            Ok(Answer::Refuted(lines))
        }
    }
}

/// What holds of itself: that some declared clock ticks.
fn first_lines(alloc: Global) -> Result<Vec<Line>, Memory>
    ensures { IfOk result (λ lines. lines.items ≡ Nonempty ∷ []) }
{
    let mut lines = Vec::new(alloc);
    lines.push(Line::Nonempty)?;
    Ok(lines)
}

/// Searches under a new guide.
fn searched(
    problem: &Problem,
    lines: &mut Vec<Line>,
    part: &mut Partial,
) -> Result<Option<Conflict>, Memory>
    requires sound { IsSound problem.now lines.old.items (known part.old) }
    requires first { 0 < length lines.old.items }
    ensures valid { OnOk result (AreValid problem.now lines.new.items) }
    ensures finds { IfOk result
        (Finds problem.now lines.new.items (known part.old) (known part.new)) }
{
    let mut guide = Guide::open(problem, lines, part)?;
    search(problem, lines, &mut guide, part, 0)
}

/// The lines, with a last one that refutes the values of a conflict.
fn refutation(
    problem: &Problem,
    mut lines: Vec<Line>,
    conflict: Conflict,
) -> Result<Seq<Line>, Memory>
    requires valid { AreValid problem.now lines.items }
    requires inside { IsInside problem.now.scope.named (known conflict.part.value) }
    requires conflict { (p : Part) × IsConflictOf problem.now lines.items p conflict }
    ensures { (p : Part) → Under (known conflict.part.value) p →
        IfOk result (IsRefuted problem.now.scope (asked problem.now) p) }
{
    derived(problem, &mut lines, &conflict)?;
    Ok(Seq::new(lines))
}
