//! What cores are worth. Each function does nothing; its contract is the law.

ghost use Rattle.std.specs.Prelude.{List};
ghost use Rattle.ccsl_formula.specs.declared.scope.Scope.{Scope};
ghost use Rattle.ccsl_formula.specs.Formula.{Formula};
ghost use Rattle.ccsl_explain.specs.Laws.{CoresBlock, CoresAreMinimal, CoresAreOne, LeastSetsAreOne, ExplanationsExist};

use ccsl_refute::laws::unsolved_have_certificates;

/// The items of a core block, where all items do.
pub fn cores_block()
    ensures { (scope : Scope) (formulas : List Formula) → CoresBlock scope formulas }
{}

/// Without any one of them the others do not block.
pub fn cores_are_minimal()
    ensures { (scope : Scope) (formulas : List Formula) → CoresAreMinimal scope formulas }
{}

/// There is one core.
pub fn cores_are_one()
    ensures { (scope : Scope) (formulas : List Formula) → CoresAreOne scope formulas }
{}

/// There is one least set without a member of a core.
pub fn least_sets_are_one()
    ensures { (scope : Scope) (formulas : List Formula) → LeastSetsAreOne scope formulas }
{}

/// Where all items read named clocks alone, a step is possible, or there is an explanation why none is.
pub fn explanations_exist()
    ensures { (scope : Scope) (formulas : List Formula) → ExplanationsExist scope formulas }
{
    unsolved_have_certificates();
}
