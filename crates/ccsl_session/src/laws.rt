//! What the stack of a session is. Each function changes nothing; its contract is the law.

ghost use Rattle.ccsl_kernel.specs.Syntax.{System};
ghost use Rattle.ccsl_kernel.specs.Accepted.{IsAccepted};
ghost use Rattle.ccsl_session.specs.Laws.{StacksRun, LinesLeaveStacks};

use ccsl_possible::laws::unforbidden_sets_are_admissible;

/// What a stack of declared sets completes to is a run.
pub fn stacks_run()
    ensures { (K : System) → IsAccepted K → StacksRun K }
{}

/// Every line leaves a stack of sets each of which was admissible behind those below it.
pub fn lines_leave_stacks()
    ensures { (K : System) → IsAccepted K → LinesLeaveStacks K }
{
    unforbidden_sets_are_admissible();
}
