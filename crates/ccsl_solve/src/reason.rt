//! Whether a reason refutes some values, and the line that says so.

ghost use Rattle.std.specs.Prelude.{◌≡◌, true, IfOk, OnOk, slice_get};
ghost use Rattle.ccsl_formula.specs.Known.{known};
ghost use Rattle.ccsl_refute.specs.Validity.{is_refuted, fails_at};
ghost use Rattle.ccsl_guide.specs.Fits.{Fits};
ghost use Rattle.ccsl_solve.specs.Under.{Under};
ghost use Rattle.ccsl_solve.specs.Posed.{IsPosed, IsSound, AreValid, asked};
ghost use Rattle.ccsl_solve.specs.Reasons.{refutes};
ghost use Rattle.ccsl_solve.specs.Conflict.{IsClause, AddsLines};

use crate::conflict::{Clash, denial};
use crate::explain::explained;
use ccsl_base::{Memory, Seq};
use ccsl_formula::Partial;
use ccsl_guide::{Guide, Operands, Problem, Reason};
use ccsl_refute::Line;
use ccsl_refute::checker::{assumed, fails_at, is_refuted};
use ccsl_refute::clause::clause_of;

/// Whether the reason refutes the values.
pub fn refutes(problem: &Problem, lines: &[Line], part: &Partial, reason: Reason) -> bool
    requires { IsPosed problem.now }
    ensures { result ≡ refutes problem.now lines.now (known part.now) reason }
{
    match reason {
        Reason::Item(item) => is_refuted(problem.formulas, item, part),
        Reason::Clause(line) => fails_at(lines, &problem.scope, problem.nonempty, part, line),
    }
}

/// The clash with a reason that refutes the values.
pub fn clash(
    problem: &Problem,
    lines: &mut Vec<Line>,
    guide: &mut Guide,
    part: &Partial,
    reason: Reason,
) -> Result<Clash, Memory>
    requires sound { IsSound problem.now lines.old.items (known part.now) }
    requires refuted { refutes problem.now lines.old.items (known part.now) reason ≡ true }
    requires fits { Fits problem.now guide.old }
    ensures fits { OnOk result (Fits problem.now guide.new) }
    ensures lines { OnOk result (AddsLines problem.now lines.old.items lines.new.items) }
    ensures clause { IfOk result
        (λ c. IsClause problem.now.scope lines.new.items c.line (known c.part.value)) }
    ensures within { IfOk result (λ c. Under (known c.part.value) (known part.now)) }
{
    match reason {
        Reason::Clause(line) => line_clash(problem, lines, part, line),
        Reason::Item(item) => {
            let line = guide.line_of(item);
            if fails_at(lines, &problem.scope, problem.nonempty, part, line) {
                return line_clash(problem, lines, part, line);
            }
            let clash = item_clash(problem, lines, &mut guide.noted, part, item)?;
            guide.note(item, clash.line);
            Ok(clash)
        }
    }
}

/// The clash with a line whose clause is false.
fn line_clash(problem: &Problem, lines: &[Line], part: &Partial, line: u64) -> Result<Clash, Memory>
    requires posed { IsPosed problem.now }
    requires valid { AreValid problem.now lines.now }
    requires refuted { fails_at problem.now.scope.declared lines.now (known part.now) line ≡ true }
    ensures clause { IfOk result
        (λ c. IsClause problem.now.scope lines.now c.line (known c.part.value)) }
    ensures within { IfOk result (λ c. Under (known c.part.value) (known part.now)) }
{
    let lits = clause_of(&lines[(line - 1) as usize], problem.nonempty);
    let Some(part) = assumed(problem.scope.named, lits) else {
        unreachable!()
    };
    Ok(Clash {
        line,
        part: Box::new(problem.alloc, part)?,
    })
}

/// The clash with an item whose formula is refuted, by a new line.
fn item_clash(
    problem: &Problem,
    lines: &mut Vec<Line>,
    noted: &mut Vec<Operands>,
    part: &Partial,
    item: u32,
) -> Result<Clash, Memory>
    requires sound { IsSound problem.now lines.old.items (known part.now) }
    requires refuted { is_refuted (known part.now) (slice_get (asked problem.now) item) ≡ true }
    ensures lines { OnOk result (AddsLines problem.now lines.old.items lines.new.items) }
    ensures clause { IfOk result
        (λ c. IsClause problem.now.scope lines.new.items c.line (known c.part.value)) }
    ensures within { IfOk result (λ c. Under (known c.part.value) (known part.now)) }
{
    let part = explained(&problem.formulas[item as usize], part, noted)?;
    let lits = denial(problem.alloc, &part)?;
    lines.push(Line::Item(item, Seq::new(lits)))?;
    Ok(Clash {
        line: lines.len() as u64,
        part: Box::new(problem.alloc, part)?,
    })
}
