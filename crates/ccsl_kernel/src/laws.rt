//! The laws of the meaning. Each function does nothing; its contract is the law.

ghost use Rattle.std.specs.Prelude.{◌≡◌, true};
ghost use Rattle.ccsl_base.specs.Name.{are_cert_names};
ghost use Rattle.ccsl_kernel.specs.Syntax.{System};
ghost use Rattle.ccsl_kernel.specs.Accepted.{IsAccepted};
ghost use Rattle.ccsl_kernel.specs.Laws.{RowsHold, NamesDie, RowsDetermine, FirstStepsMatter, ReadsLower, DeadStays};
ghost use Rattle.ccsl_kernel.specs.Laws.{CompletionExists, CompletionOnly, RunsObey, RunsComplete, AdmissibleSetsExtend};
ghost use Rattle.ccsl_kernel.specs.Laws.{CountsAreBounded, EmptyHolds, VerdictIsFirst};

/// Each row of the table holds of the meaning as an equation, calls of earlier groups and of the own one included.
pub fn rows_hold()
    ensures { (K : System) → IsAccepted K → RowsHold K }
{}

/// A clock is dead where its definition, born at 0, is.
pub fn names_die()
    ensures { (K : System) → NamesDie K }
{}

/// What obeys each row of the table is the meaning.
pub fn rows_determine()
    ensures { (K : System) → IsAccepted K → RowsDetermine K }
{}

/// Later steps don't change what an expression meant.
pub fn first_steps_matter()
    ensures { (K : System) → IsAccepted K → FirstStepsMatter K }
{}

/// The formula of a definition reads clocks below its own.
pub fn reads_lower()
    ensures { (K : System) → IsAccepted K → ReadsLower K }
{}

/// In a list that obeys the definitions, what is dead does not tick and stays dead.
pub fn dead_stays()
    ensures { (K : System) → IsAccepted K → DeadStays K }
{}

/// The completion of declared ticks obeys the definitions, with these declared ticks.
pub fn completion_exists()
    ensures { (K : System) → IsAccepted K → CompletionExists K }
{}

/// A list that obeys the definitions is the completion of its declared part.
pub fn completion_only()
    ensures { (K : System) → IsAccepted K → CompletionOnly K }
{}

/// A run obeys the definitions.
pub fn runs_obey()
    ensures { (K : System) → RunsObey K }
{}

/// A run of sets of named clocks is the completion of its declared part.
pub fn runs_complete()
    ensures { (K : System) → IsAccepted K → RunsComplete K }
{}

/// After a run, what is admissible are the declared members of the sets that satisfy every item's formula, where they
/// have one.
pub fn admissible_sets_extend()
    ensures { (K : System) → IsAccepted K → AdmissibleSetsExtend K }
{}

/// No clock and no operand has ticked more often than there were steps.
pub fn counts_are_bounded()
    ensures { CountsAreBounded }
{}

/// The empty set satisfies every item's formula at every step, so a step of a simulation must be nonempty.
pub fn empty_holds()
    ensures { (K : System) → IsAccepted K → EmptyHolds K }
{}

/// The names of a system can stand in certificates.
pub fn names_stand_in_certificates()
    ensures { (K : System) → IsAccepted K → are_cert_names K.names ≡ true }
{}

/// The verdict is the least violated step and the least item there, or a run where nothing is violated.
pub fn verdict_is_first()
    ensures { (K : System) → VerdictIsFirst K }
{}
