//! The laws of the states. Each function does nothing; its contract is the law.

ghost use Rattle.std.specs.Prelude.{ℕ, Bool, List};
ghost use Rattle.ccsl_kernel.specs.Syntax.{System};
ghost use Rattle.ccsl_kernel.specs.Lives.{Step};
ghost use Rattle.ccsl_kernel.specs.Accepted.{IsAccepted};
ghost use Rattle.ccsl_state.specs.Held.{Held, StandsFor};
ghost use Rattle.ccsl_state.specs.Tree.{Tree};
ghost use Rattle.ccsl_state.specs.Laws.{TreesMean, Means, GoesOn, DerivesNext, DeadStaySilent};
ghost use Rattle.ccsl_state.specs.Quiet.{ReadsNoMore, IsQuiet, TellsNothing, StaysAsItIs, Settles};

/// A state tree that is rewritten step by step gives formula and death by the whole history.
pub fn trees_mean()
    ensures { (K : System) → IsAccepted K → TreesMean K }
{}

/// Formulas, derived steps and deaths that are read from a row are those of the list of steps that the row stands for.
pub fn rows_mean()
    ensures { (h : Held) (T : List Step) → IsAccepted h.system → StandsFor h T → Means h T }
{}

/// A row that goes on by a full step stands for the list with that step.
pub fn rows_go_on()
    ensures { (h : Held) → IsAccepted h.system → GoesOn h }
{}

/// What is derived from declared ticks is the one next step of the completion.
pub fn derived_step_completes()
    ensures { (h : Held) → IsAccepted h.system → DerivesNext h }
{}

/// What is dead neither ticks nor comes back.
pub fn dead_stay_silent()
    ensures { (h : Held) → IsAccepted h.system → DeadStaySilent h }
{}

/// A living definition reads the clocks that its expression names, and no others.
pub fn definitions_read_no_more()
    ensures { (K : System) → IsAccepted K → ReadsNoMore K }
{}

/// Nothing heard, nothing told: what hears none of its clocks does not tick.
#[tactic(auto, using(crate::proofs::QuietLaws::tells_nothing))]
pub fn nothing_heard_nothing_told()
    ensures { (t : Tree) (s : Step) → TellsNothing s t }
{}

/// Nothing heard, nothing moved: what is settled, hears none of its clocks and sees none of them die stays as it is,
/// and is dead where it was.
pub fn nothing_heard_nothing_moved()
    ensures { (K : System) (t : Tree) (s : Step) (gone gone' : ℕ → Bool) →
        IsQuiet s gone gone' t → StaysAsItIs K s gone gone' t }
{}

/// Unsettled lasts one step: after it only what was born in it may be unsettled.
#[tactic(auto, using(crate::proofs::QuietLaws::settles))]
pub fn unsettled_lasts_one_step()
    ensures { (K : System) (t : Tree) (s : Step) (gone : ℕ → Bool) → Settles K s gone t }
{}
