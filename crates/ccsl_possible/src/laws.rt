//! What is possible after a run. Each function does nothing; its contract is the law.

ghost use Rattle.ccsl_kernel.specs.Syntax.{System};
ghost use Rattle.ccsl_kernel.specs.Accepted.{IsAccepted};
ghost use Rattle.ccsl_possible.specs.Laws.{UnforbiddenSetsAreAdmissible, AllowedClocksMayTick};

/// A set of declared clocks may tick exactly where no constraint fails.
pub fn unforbidden_sets_are_admissible()
    ensures { (K : System) → IsAccepted K → UnforbiddenSetsAreAdmissible K }
{}

/// A clock is allowed exactly where it is a member of some admissible set.
pub fn allowed_clocks_may_tick()
    ensures { (K : System) → IsAccepted K → AllowedClocksMayTick K }
{}
