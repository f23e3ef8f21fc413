//! Names: what a name stands for ticks and dies as its clock.

ghost use Rattle.std.specs.Prelude.{◌≡◌};
ghost use Rattle.ccsl_formula.specs.Formula.{eval};
ghost use Rattle.ccsl_state.specs.Tree.{leaf, formula_of, dead_of};
ghost use Rattle.ccsl_state.specs.Moves.{gone_in};

use ccsl_base::ClockSet;
use ccsl_kernel::Actual;

/// Whether a name ticks in a step.
pub fn name_ticks(actual: Actual, step: &ClockSet) -> bool
    ensures { result ≡ eval (formula_of (leaf actual)) step.now }
{
    match actual {
        Actual::Clock(x) => step.has(x),
        Actual::Number(_) | Actual::Word(_, _) => false,
    }
}

/// Whether what a name stands for is dead: a clock is where it is among the dead ones.
pub fn is_gone(actual: Actual, gone: &ClockSet) -> bool
    ensures { result ≡ dead_of (gone_in gone.now) (leaf actual) }
{
    match actual {
        Actual::Clock(x) => gone.has(x),
        Actual::Number(_) | Actual::Word(_, _) => false,
    }
}
