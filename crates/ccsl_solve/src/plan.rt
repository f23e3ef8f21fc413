//! What to do next in a search.

ghost use Rattle.std.specs.Prelude.{◌≡◌, ◌≢◌, ◌<◌, ℕ, List, Some, true, IfOk, OnOk, MatchOption, slice_get};
ghost use Rattle.ccsl_formula.specs.declared.truth3.Truth3.TheVariants.{Open};
ghost use Rattle.ccsl_formula.specs.Agreement.{is_open};
ghost use Rattle.ccsl_formula.specs.Known.{known};
ghost use Rattle.ccsl_guide.specs.Fits.{Fits};
ghost use Rattle.ccsl_solve.specs.Posed.{IsPosed, AreValid};
ghost use Rattle.ccsl_refute.specs.declared.line.Line.{Line};
ghost use Rattle.ccsl_refute.specs.declared.line.Lit.{Lit};
ghost use Rattle.ccsl_solve.specs.Reasons.{IsForced};
ghost use Rattle.ccsl_solve.specs.Plan.{AreSettled, IsPlan};

use crate::reason::refutes;
use ccsl_base::Memory;
use ccsl_formula::{Partial, Truth3};
use ccsl_guide::{Guide, Hint, Problem, Reason};
use ccsl_refute::{Line, Lit};

/// The next step of a search.
#[derive(Clone, Copy)]
pub enum Plan {
    /// The reason refutes the present values.
    Broken(Reason),
    /// All clocks have values.
    Complete,
    /// To try the literal first. Where there is a reason, it refutes the other value of the clock at once.
    /// The clocks of as many wishes as the number says have values.
    Try(Lit, Option<Reason>, usize),
}

/// Whether a clock has no value.
pub fn is_open_at(part: &Partial, clock: u32) -> bool
    ensures { result ≡ is_open (known part.now clock) }
{
    match part.value(clock) {
        Truth3::Yes => false,
        Truth3::No => false,
        Truth3::Open => true,
    }
}

/// What to do next, where the clocks of the first `from` wishes have values.
pub fn planned(
    problem: &Problem,
    lines: &[Line],
    guide: &mut Guide,
    part: &mut Partial,
    from: usize,
) -> Result<Plan, Memory>
    requires posed { IsPosed problem.now }
    requires valid { AreValid problem.now lines.now }
    requires settled { AreSettled problem.now.wishes.now from (known part.old) }
    requires fits { Fits problem.now guide.old }
    ensures fits { OnOk result (Fits problem.now guide.new) }
    ensures same { OnOk result (known part.new ≡ known part.old) }
    ensures plan { IfOk result (IsPlan problem.now lines.now (known part.old)) }
{
    match guide.next(problem, lines, part)? {
        Hint::Broken(reason) => {
            if refutes(problem, lines, part, reason) {
                Ok(Plan::Broken(reason))
            } else {
                Ok(decided(problem, part, None, from))
            }
        }
        Hint::Forced(lit, reason) => {
            if forces(problem, lines, part, lit, reason) {
                Ok(Plan::Try(lit, Some(reason), from))
            } else {
                Ok(decided(problem, part, None, from))
            }
        }
        Hint::Decide(lit) => Ok(decided(problem, part, lit, from)),
    }
}

/// Whether the literal is open, and the reason refutes its negation.
fn forces(problem: &Problem, lines: &[Line], part: &mut Partial, lit: Lit, reason: Reason) -> bool
    requires { IsPosed problem.now }
    ensures same { known part.new ≡ known part.old }
    ensures named { result ≡ true → lit.clock < problem.now.scope.named }
    ensures free { result ≡ true → known part.old lit.clock ≡ Open }
    ensures forced { result ≡ true → IsForced problem.now lines.now (known part.old) lit reason }
{
    if lit.clock >= problem.scope.named || !is_open_at(part, lit.clock) {
        return false;
    }
    part.set(lit.clock, !lit.positive);
    let refuted = refutes(problem, lines, part, reason);
    part.forget(lit.clock);
    refuted
}

/// The first wish that is open, or another literal that is, if possible the one that is proposed.
fn decided(problem: &Problem, part: &Partial, proposed: Option<Lit>, from: usize) -> Plan
    requires posed { IsPosed problem.now }
    requires settled { AreSettled problem.now.wishes.now from (known part.now) }
    ensures { (lines : List Line) → IsPlan problem.now lines (known part.now) result }
{
    let next = open_wish(problem.wishes, part, from);
    if next < problem.wishes.len() {
        return Plan::Try(problem.wishes[next], None, next);
    }
    match open_lit(part, problem.scope.named, proposed) {
        None => Plan::Complete,
        Some(lit) => Plan::Try(lit, None, next),
    }
}

/// The place of the first wish for an open clock, from `from` on.
fn open_wish(wishes: &[Lit], part: &Partial, from: usize) -> usize
    requires { AreSettled wishes.now from (known part.now) }
    ensures settled { AreSettled wishes.now result (known part.now) }
    ensures open { (l : Lit) → slice_get wishes.now result ≡ Some l →
        known part.now l.clock ≡ Open }
{
    let mut next = from;
    while next < wishes.len() && !is_open_at(part, wishes[next].clock) {
        next += 1;
    }
    next
}

/// An open literal: the one that is proposed, where it is.
fn open_lit(part: &Partial, named: u32, proposed: Option<Lit>) -> Option<Lit>
    ensures { MatchOption result
        ((x : ℕ) → x < named → known part.now x ≢ Open)
        (λ l. (l.clock < named) × (known part.now l.clock ≡ Open)) }
{
    if let Some(lit) = proposed {
        if lit.clock < named && is_open_at(part, lit.clock) {
            return Some(lit);
        }
    }
    for clock in 0..named {
        if is_open_at(part, clock) {
            return Some(Lit {
                clock,
                positive: false,
            });
        }
    }
    None
}
