//! What is asked of the solver.

ghost use Rattle.std.specs.Prelude.{◌≡◌, ◌<◌, ◌≤◌, ◌^◌, All, length};
ghost use Rattle.ccsl_formula.specs.Plain.{plain};
ghost use Rattle.ccsl_formula.specs.Variables.{ReadsBelow};
ghost use Rattle.ccsl_refute.specs.Below.{AreBelow};
ghost use Rattle.ccsl_refute.specs.LineLiterals.{literals};
ghost use Rattle.ccsl_refute.specs.Literals.{positives};

use ccsl_formula::{Formula, Scope};
use ccsl_refute::clause::clause_of;
use ccsl_refute::{Line, Lit};
use std::alloc::Global;

/// Formulas, and what is wished for of a set that satisfies them.
#[derive(Drop)]
pub struct Problem<'a> {
    pub alloc: Global,
    pub formulas: &'a [Formula],
    pub scope: Scope,
    /// All declared clocks, positive.
    pub nonempty: &'a [Lit],
    /// Literals, of which an earlier one counts more than all later ones.
    pub wishes: &'a [Lit],
    pub ghost few: { length formulas.now < 2 ^ 32 },
    pub ghost reads: { All (λ f. ReadsBelow scope.named (plain f)) formulas.now },
    pub ghost declared: { scope.declared ≤ scope.named },
    pub ghost members: { nonempty.now ≡ positives scope.declared },
}

/// The literals of a line's clause.
pub(crate) fn clause_in<'a>(problem: &Problem<'a>, line: &'a Line) -> &'a [Lit]
    requires { AreBelow problem.now.scope.named (literals line.now) }
    ensures { All (λ l. l.clock < problem.now.scope.named) result.now }
{
    clause_of(line, problem.nonempty)
}
