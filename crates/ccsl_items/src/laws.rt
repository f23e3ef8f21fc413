//! What the sets that satisfy every item's formula are to the runs of a system. Each function does nothing; its
//! contract is the law.

ghost use Rattle.ccsl_kernel.specs.Syntax.{System};
ghost use Rattle.ccsl_kernel.specs.Accepted.{IsAccepted};
ghost use Rattle.ccsl_items.specs.Laws.{AdmissibleSetsSolve, SolutionsAreFull, BlockedRunsEnd, FormulasReadNamed};

use ccsl_kernel::laws::reads_lower;

/// After a run, what is admissible are the declared members of the sets of named clocks that solve the items' formulas.
pub fn admissible_sets_solve()
    ensures { (K : System) → IsAccepted K → AdmissibleSetsSolve K }
{}

/// A set that solves the items' formulas is the full step of itself, and of its declared members.
pub fn solutions_are_full()
    ensures { (K : System) → IsAccepted K → SolutionsAreFull K }
{}

/// After a run whose items' formulas no set solves, no set is admissible.
pub fn blocked_runs_end()
    ensures { (K : System) → IsAccepted K → BlockedRunsEnd K }
{}

/// The items' formulas read named clocks alone.
pub fn formulas_read_named()
    ensures { (K : System) → IsAccepted K → FormulasReadNamed K }
{
    reads_lower();
}
