//! The checker of certificates.

ghost use Rattle.std.specs.Prelude.{◌≡◌, ◌≤◌, ℕ, true, false, map, Some, None, IfOk, MatchOption, slice_get};
ghost use Rattle.ccsl_formula.specs.Known.{known};
ghost use Rattle.ccsl_formula.specs.Plain.{plain};
ghost use Rattle.ccsl_refute.specs.Literals.{falsified, is_no, are_proper, positives};
ghost use Rattle.ccsl_refute.specs.Validity.{line_at, fails_at, unit_at, closes, is_refuted, is_valid, ends_empty, first_bad_line};
ghost use Rattle.ccsl_refute.specs.Below.{ClausesBelow};
ghost use Rattle.ccsl_refute.specs.Meaning.{Blocks};
ghost use Rattle.ccsl_refute.specs.Answer.{Answers};

use crate::clause::{all_false, clause_of, positives, unit};
use crate::line::{Line, Lit};
use ccsl_base::MAX_CLOCKS;
use ccsl_formula::{Formula, Partial, Scope, Truth3};
use std::alloc::Global;

/// Why lines are no certificate.
#[derive(Clone, Copy)]
pub enum CheckFault {
    /// The first invalid line, from 1; one more than there are lines where all are valid and the last clause is not
    /// empty, or there is no line.
    BadLine(u64),
    Memory,
}

/// Each literal false, where no clock is named twice and each is below `named`.
pub fn assumed(named: u32, lits: &[Lit]) -> Option<Partial>
    requires { named ≤ MAX_CLOCKS }
    ensures { MatchOption result (are_proper named lits.now ≡ false)
        (λ p. (are_proper named lits.now ≡ true) × (known p ≡ falsified lits.now)) }
{
    let mut part = Partial::empty();
    let mut i = lits.len();
    while i > 0 {
        i -= 1;
        let lit = lits[i];
        if lit.clock >= named {
            return None;
        }
        match part.value(lit.clock) {
            Truth3::Open => part.set(lit.clock, !lit.positive),
            Truth3::Yes => return None,
            Truth3::No => return None,
        }
    }
    Some(part)
}

/// The line of a number, if there is one.
fn line_at(lines: &[Line], number: u64) -> Option<&Line>
    ensures { MatchOption result (line_at lines.now number ≡ None)
        (λ line. line_at lines.now number ≡ Some line.now) }
{
    if number == 0 {
        None
    } else {
        lines.get((number - 1) as usize)
    }
}

/// Whether the clause of a line, by its number, has each literal false.
pub fn fails_at(
    lines: &[Line],
    scope: &Scope,
    nonempty: &[Lit],
    part: &Partial,
    number: u64,
) -> bool
    requires { nonempty.now ≡ positives scope.now.declared }
    ensures { result ≡ fails_at scope.now.declared lines.now (known part.now) number }
{
    match line_at(lines, number) {
        None => false,
        Some(line) => all_false(part, clause_of(line, nonempty)),
    }
}

/// The one literal that the clause of a line, by its number, leaves open.
pub fn unit_at(
    lines: &[Line],
    scope: &Scope,
    nonempty: &[Lit],
    part: &Partial,
    number: u64,
) -> Option<Lit>
    requires { nonempty.now ≡ positives scope.now.declared }
    ensures { result ≡ unit_at scope.now.declared lines.now (known part.now) number }
{
    match line_at(lines, number) {
        None => None,
        Some(line) => unit(part, clause_of(line, nonempty)),
    }
}

/// Whether the clauses of the lines close.
fn closes(lines: &[Line], scope: &Scope, nonempty: &[Lit], start: Partial, hints: &[u64]) -> bool
    requires nonempty { nonempty.now ≡ positives scope.now.declared }
    requires below { ClausesBelow MAX_CLOCKS scope.now.declared lines.now }
    ensures { result ≡ closes scope.now.declared lines.now (known start) hints.now }
{
    let mut part = start;
    let mut i = 0;
    while i < hints.len() {
        let hint = hints[i];
        i += 1;
        if i == hints.len() {
            return fails_at(lines, scope, nonempty, &part, hint);
        }
        match unit_at(lines, scope, nonempty, &part, hint) {
            None => return false,
            Some(lit) => part.set(lit.clock, lit.positive),
        }
    }
    false
}

/// Whether the formula of an item has the Kleene value No.
pub fn is_refuted(formulas: &[Formula], item: u32, part: &Partial) -> bool
    ensures { result ≡ is_refuted (known part.now) (slice_get (map plain formulas.now) item) }
{
    match formulas.get(item as usize) {
        None => false,
        Some(formula) => is_no(formula.kleene(part)),
    }
}

fn is_no(value: Truth3) -> bool
    ensures { result ≡ is_no value }
{
    match value {
        Truth3::No => true,
        Truth3::Yes => false,
        Truth3::Open => false,
    }
}

/// Whether a line is valid after the earlier ones.
fn is_valid(
    earlier: &[Line],
    scope: &Scope,
    nonempty: &[Lit],
    formulas: &[Formula],
    line: &Line,
) -> bool
    requires nonempty { nonempty.now ≡ positives scope.now.declared }
    requires below { ClausesBelow MAX_CLOCKS scope.now.declared earlier.now }
    requires named { scope.now.named ≤ MAX_CLOCKS }
    ensures { result ≡ is_valid scope.now (map plain formulas.now) earlier.now line.now }
{
    match line {
        Line::Nonempty => true,
        Line::Item(item, lits) => match assumed(scope.named, lits.members()) {
            None => false,
            Some(part) => is_refuted(formulas, *item, &part),
        },
        Line::Derived(lits, hints) => match assumed(scope.named, lits.members()) {
            None => false,
            Some(part) => closes(earlier, scope, nonempty, part, hints.members()),
        },
    }
}

/// Whether there is a last clause, and it is empty.
fn ends_empty(lines: &[Line], scope: &Scope, nonempty: &[Lit]) -> bool
    requires { nonempty.now ≡ positives scope.now.declared }
    ensures { result ≡ ends_empty scope.now.declared lines.now }
{
    match lines.last() {
        None => false,
        Some(line) => clause_of(line, nonempty).is_empty(),
    }
}

/// Checks the lines of a certificate.
pub fn check(
    alloc: Global,
    lines: &[Line],
    formulas: &[Formula],
    scope: &Scope,
) -> Result<(), CheckFault>
    requires declared { scope.now.declared ≤ scope.now.named }
    requires named { scope.now.named ≤ MAX_CLOCKS }
    ensures answers { Answers (first_bad_line scope.now (map plain formulas.now) lines.now) result }
    ensures sound { IfOk result (λ _. Blocks scope.now (map plain formulas.now)) }
{
    let Ok(nonempty) = positives(alloc, scope.declared) else {
        return Err(CheckFault::Memory);
    };
    let mut i = 0;
    while i < lines.len() {
        if !is_valid(&lines[..i], scope, &nonempty, formulas, &lines[i]) {
            return Err(CheckFault::BadLine(i as u64 + 1));
        }
        i += 1;
    }
    if ends_empty(lines, scope, &nonempty) {
        Ok(())
    } else {
        Err(CheckFault::BadLine(i as u64 + 1))
    }
}
