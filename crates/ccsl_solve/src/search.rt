//! The search.

ghost use Rattle.std.specs.Prelude.{◌≡◌, ◌≢◌, ◌<◌, ◌^◌, ◌∷◌, [], ℕ, true, false, map, length, IfOk, OnOk, MatchOption, slice_get};
ghost use Rattle.ccsl_formula.specs.declared.truth3.Truth3.TheVariants.{Open};
ghost use Rattle.ccsl_formula.specs.Agreement.{is_open};
ghost use Rattle.ccsl_formula.specs.Known.{known};
ghost use Rattle.ccsl_formula.specs.Plain.{plain};
ghost use Rattle.ccsl_refute.specs.Literals.{all_false};
ghost use Rattle.ccsl_refute.specs.Validity.{is_refuted};
ghost use Rattle.ccsl_guide.specs.Fits.{Fits};
ghost use Rattle.ccsl_solve.specs.Posed.{IsSound};
ghost use Rattle.ccsl_solve.specs.Reasons.{refutes, IsForced};
ghost use Rattle.ccsl_solve.specs.Conflict.{IsConflictOf, IsConflictWith, AddsLines};
ghost use Rattle.ccsl_solve.specs.Plan.{AreSettled, IsTry};
ghost use Rattle.ccsl_solve.specs.Finds.{Finds, FindsWith};

use crate::conflict::{Clash, Conflict, learned, resolved};
use crate::plan::{Plan, is_open_at, planned};
use crate::reason::clash;
use ccsl_base::Memory;
use ccsl_formula::{Formula, Partial};
use ccsl_guide::{Guide, Problem, Reason};
use ccsl_refute::checker::is_refuted;
use ccsl_refute::clause::all_false;
use ccsl_refute::{Line, Lit};
use std::alloc::Global;

/// Whether a conflict does not use a clock.
fn is_free_of(part: &Box<Partial>, clock: u32) -> bool
    ensures { result ≡ is_open (known part.now.value clock) }
{
    is_open_at(part, clock)
}

/// The conflict that a clash is.
fn conflict_of(alloc: Global, clash: Clash) -> Result<Conflict, Memory>
    ensures part { IfOk result (λ c. known c.part.value ≡ known clash.part.value) }
    ensures hints { IfOk result (λ c. c.hints.items ≡ clash.line ∷ []) }
{
    let mut hints = Vec::new(alloc);
    hints.push(clash.line)?;
    Ok(Conflict {
        part: clash.part,
        hints,
    })
}

/// The first formula that is refuted.
fn refuted_item(formulas: &[Formula], part: &Partial) -> Option<u32>
    requires { length formulas.now < 2 ^ 32 }
    ensures { MatchOption result
        ((k : ℕ) → k < length formulas.now →
        is_refuted (known part.now) (slice_get (map plain formulas.now) k) ≡ false)
        (λ k. is_refuted (known part.now) (slice_get (map plain formulas.now) k) ≡ true) }
{
    for item in 0..formulas.len() as u32 {
        if is_refuted(formulas, item, part) {
            return Some(item);
        }
    }
    None
}

/// The conflict with the present values, by a reason that refutes them.
fn broken(
    problem: &Problem,
    lines: &mut Vec<Line>,
    guide: &mut Guide,
    part: &Partial,
    reason: Reason,
) -> Result<Conflict, Memory>
    requires sound { IsSound problem.now lines.old.items (known part.now) }
    requires refuted { refutes problem.now lines.old.items (known part.now) reason ≡ true }
    requires fits { Fits problem.now guide.old }
    ensures fits { OnOk result (Fits problem.now guide.new) }
    ensures lines { OnOk result (AddsLines problem.now lines.old.items lines.new.items) }
    ensures conflict { IfOk result (IsConflictOf problem.now lines.new.items (known part.now)) }
{
    let clash = clash(problem, lines, guide, part, reason)?;
    let conflict = conflict_of(problem.alloc, clash)?;
    Ok(conflict)
}

/// The end of a branch, where all clocks have values: a model, or the conflict.
fn completed(
    problem: &Problem,
    lines: &mut Vec<Line>,
    guide: &mut Guide,
    part: &Partial,
) -> Result<Option<Conflict>, Memory>
    requires sound { IsSound problem.now lines.old.items (known part.now) }
    requires total { (x : ℕ) → x < problem.now.scope.named → known part.now x ≢ Open }
    requires fits { Fits problem.now guide.old }
    ensures fits { OnOk result (Fits problem.now guide.new) }
    ensures lines { OnOk result (AddsLines problem.now lines.old.items lines.new.items) }
    ensures finds { IfOk result
        (Finds problem.now lines.new.items (known part.now) (known part.now)) }
{
    if let Some(item) = refuted_item(problem.formulas, part) {
        let conflict = broken(problem, lines, guide, part, Reason::Item(item))?;
        return Ok(Some(conflict));
    }
    if all_false(part, problem.nonempty) {
        let conflict = no_member(problem, lines, guide, part)?;
        return Ok(Some(conflict));
    }
    Ok(None)
}

/// The conflict where no declared clock ticks.
fn no_member(
    problem: &Problem,
    lines: &mut Vec<Line>,
    guide: &mut Guide,
    part: &Partial,
) -> Result<Conflict, Memory>
    requires sound { IsSound problem.now lines.old.items (known part.now) }
    requires none { all_false (known part.now) problem.now.nonempty.now ≡ true }
    requires fits { Fits problem.now guide.old }
    ensures fits { OnOk result (Fits problem.now guide.new) }
    ensures lines { OnOk result (AddsLines problem.now lines.old.items lines.new.items) }
    ensures conflict { IfOk result (IsConflictOf problem.now lines.new.items (known part.now)) }
{
    lines.push(Line::Nonempty)?;
    let line = lines.len() as u64;
    broken(problem, lines, guide, part, Reason::Clause(line))
}

/// The conflict before a literal was tried, from the one with it, where a reason refutes its negation at once.
fn against(
    problem: &Problem,
    lines: &mut Vec<Line>,
    guide: &mut Guide,
    part: &mut Partial,
    lit: Lit,
    reason: Reason,
    conflict: Conflict,
) -> Result<Conflict, Memory>
    requires sound { IsSound problem.now lines.old.items (known part.old) }
    requires named { lit.clock < problem.now.scope.named }
    requires free { known part.old lit.clock ≡ Open }
    requires forced { IsForced problem.now lines.old.items (known part.old) lit reason }
    requires conflict { IsConflictWith problem.now lines.old.items (known part.old) lit conflict }
    requires fits { Fits problem.now guide.old }
    ensures fits { OnOk result (Fits problem.now guide.new) }
    ensures same { OnOk result (known part.new ≡ known part.old) }
    ensures lines { OnOk result (AddsLines problem.now lines.old.items lines.new.items) }
    ensures conflict { IfOk result (IsConflictOf problem.now lines.new.items (known part.old)) }
{
    let other = Lit {
        clock: lit.clock,
        positive: !lit.positive,
    };
    part.set(other.clock, other.positive);
    let clash = clash(problem, lines, guide, part, reason)?;
    part.forget(other.clock);
    if is_free_of(&clash.part, other.clock) {
        let conflict = conflict_of(problem.alloc, clash)?;
        return Ok(conflict);
    }
    let conflict = resolved(problem, lines, part, other, clash, conflict)?;
    Ok(conflict)
}

/// Searches where a literal is true as well: gives the other clocks values that are best with it, or gives the
/// conflict, and `part` is as before.
#[cycle(search)]
fn search_with(
    problem: &Problem,
    lines: &mut Vec<Line>,
    guide: &mut Guide,
    part: &mut Partial,
    lit: Lit,
    from: usize,
) -> Result<Option<Conflict>, Memory>
    requires sound { IsSound problem.now lines.old.items (known part.old) }
    requires settled { AreSettled problem.now.wishes.now from (known part.old) }
    requires named { lit.clock < problem.now.scope.named }
    requires free { known part.old lit.clock ≡ Open }
    requires fits { Fits problem.now guide.old }
    ensures fits { OnOk result (Fits problem.now guide.new) }
    ensures lines { OnOk result (AddsLines problem.now lines.old.items lines.new.items) }
    ensures finds { IfOk result
        (FindsWith problem.now lines.new.items (known part.old) lit (known part.new)) }
{
    part.set(lit.clock, lit.positive);
    let Some(conflict) = search(problem, lines, guide, part, from)? else {
        return Ok(None);
    };
    part.forget(lit.clock);
    Ok(Some(conflict))
}

/// Searches with the negation of a literal, behind the conflict with it that uses its clock: what is learned of it is
/// a line.
#[cycle(search)]
fn search_against(
    problem: &Problem,
    lines: &mut Vec<Line>,
    guide: &mut Guide,
    part: &mut Partial,
    lit: Lit,
    from: usize,
    first: Conflict,
) -> Result<Option<Conflict>, Memory>
    requires sound { IsSound problem.now lines.old.items (known part.old) }
    requires settled { AreSettled problem.now.wishes.now from (known part.old) }
    requires named { lit.clock < problem.now.scope.named }
    requires free { known part.old lit.clock ≡ Open }
    requires conflict { IsConflictWith problem.now lines.old.items (known part.old) lit first }
    requires fits { Fits problem.now guide.old }
    ensures fits { OnOk result (Fits problem.now guide.new) }
    ensures lines { OnOk result (AddsLines problem.now lines.old.items lines.new.items) }
    ensures finds { IfOk result
        (Finds problem.now lines.new.items (known part.old) (known part.new)) }
{
    let other = Lit {
        clock: lit.clock,
        positive: !lit.positive,
    };
    let line = learned(problem, lines, &first)?;
    guide.flipped(problem, lines, part, lit, line)?;
    let Some(second) = search_with(problem, lines, guide, part, other, from)? else {
        return Ok(None);
    };
    if is_free_of(&second.part, lit.clock) {
        return Ok(Some(second));
    }
    let clash = first.into_clash(line);
    let conflict = resolved(problem, lines, part, lit, clash, second)?;
    Ok(Some(conflict))
}

/// Searches with a literal first, and with its negation where the conflict that is found with it uses its clock.
#[cycle(search)]
fn search_both(
    problem: &Problem,
    lines: &mut Vec<Line>,
    guide: &mut Guide,
    part: &mut Partial,
    lit: Lit,
    by: Option<Reason>,
    from: usize,
) -> Result<Option<Conflict>, Memory>
    requires sound { IsSound problem.now lines.old.items (known part.old) }
    requires first { IsTry problem.now lines.old.items (known part.old) lit by from }
    requires fits { Fits problem.now guide.old }
    ensures fits { OnOk result (Fits problem.now guide.new) }
    ensures lines { OnOk result (AddsLines problem.now lines.old.items lines.new.items) }
    ensures finds { IfOk result
        (Finds problem.now lines.new.items (known part.old) (known part.new)) }
{
    guide.assigned(lit)?;
    let Some(first) = search_with(problem, lines, guide, part, lit, from)? else {
        return Ok(None);
    };
    if is_free_of(&first.part, lit.clock) {
        return Ok(Some(first));
    }
    if let Some(reason) = by {
        let conflict = against(problem, lines, guide, part, lit, reason, first)?;
        return Ok(Some(conflict));
    }
    search_against(problem, lines, guide, part, lit, from, first)
}

/// Gives all clocks values, those that `part` has among them, so that a declared clock ticks and all formulas are true,
/// and no other values that do so are better; or gives the conflict, and `part` is as before.
#[cycle(search)]
pub fn search(
    problem: &Problem,
    lines: &mut Vec<Line>,
    guide: &mut Guide,
    part: &mut Partial,
    from: usize,
) -> Result<Option<Conflict>, Memory>
    requires sound { IsSound problem.now lines.old.items (known part.old) }
    requires settled { AreSettled problem.now.wishes.now from (known part.old) }
    requires fits { Fits problem.now guide.old }
    ensures fits { OnOk result (Fits problem.now guide.new) }
    ensures lines { OnOk result (AddsLines problem.now lines.old.items lines.new.items) }
    ensures finds { IfOk result
        (Finds problem.now lines.new.items (known part.old) (known part.new)) }
{
    match planned(problem, lines, guide, part, from)? {
        Plan::Broken(reason) => {
            let conflict = broken(problem, lines, guide, part, reason)?;
            Ok(Some(conflict))
        }
        Plan::Complete => completed(problem, lines, guide, part),
        Plan::Try(lit, by, from) => search_both(problem, lines, guide, part, lit, by, from),
    }
}
