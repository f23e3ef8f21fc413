//! What a certificate is worth. Each function does nothing; its contract is the law.

ghost use Rattle.ccsl_kernel.specs.Syntax.{System};
ghost use Rattle.ccsl_kernel.specs.Accepted.{IsAccepted};
ghost use Rattle.ccsl_certify.specs.Laws.{YesIsDeadlock, AnsweredYesIsDeadlock};

/// Where the answer of [`crate::certify`] is yes, the trace that it read is a run of so many steps, and no set is
/// admissible after it.
pub fn yes_is_deadlock()
    ensures { (K : System) → IsAccepted K → YesIsDeadlock K }
{}

/// Where the answer on the recorded rows of a trace and on some lines is yes, the trace is a run of so many steps, and
/// no set is admissible after it.
pub fn answered_yes_is_deadlock()
    ensures { (K : System) → IsAccepted K → AnsweredYesIsDeadlock K }
{}
