//! Certificates that the solver finds.

ghost use Rattle.std.specs.Prelude.{◌≡◌, true, map, IfOk, MatchOption};
ghost use Rattle.ccsl_formula.specs.Plain.{plain};
ghost use Rattle.ccsl_refute.specs.Meaning.{Blocks};
ghost use Rattle.ccsl_refute.specs.Validity.{is_certificate};
ghost use Rattle.ccsl_explain.specs.Asked.{IsAsked, HasStep};

use ccsl_base::{Memory, Seq};
use ccsl_formula::{Formula, Partial, Scope};
use ccsl_refute::Line;
use ccsl_solve::{Answer, solve};
use std::alloc::Global;

/// The lines of a certificate, where no step satisfies the formulas.
pub fn refutation(
    alloc: Global,
    formulas: &[Formula],
    scope: &Scope,
) -> Result<Option<Seq<Line>>, Memory>
    requires { IsAsked scope.now (map plain formulas.now) }
    ensures { IfOk result (λ found. MatchOption found
        (HasStep scope.now (map plain formulas.now))
        (λ lines. is_certificate scope.now (map plain formulas.now) lines ≡ true)) }
{
    match solve(alloc, formulas, scope, &Partial::empty())? {
        Answer::Step(_) => Ok(None),
        Answer::Refuted(lines) => Ok(Some(lines)),
    }
}

/// The lines of a certificate for formulas that block.
pub fn certificate(alloc: Global, formulas: &[Formula], scope: &Scope) -> Result<Seq<Line>, Memory>
    requires asked { IsAsked scope.now (map plain formulas.now) }
    requires blocks { Blocks scope.now (map plain formulas.now) }
    ensures { IfOk result
        (λ lines. is_certificate scope.now (map plain formulas.now) lines ≡ true) }
{
    match refutation(alloc, formulas, scope)? {
        None => unreachable!(),
        Some(lines) => Ok(lines),
    }
}
