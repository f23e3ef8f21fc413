//! Laws of the choice, each as a function without a body.

ghost use Rattle.std.specs.Prelude.{◌≡◌, ◌<◌, ℕ, List, true};
ghost use Rattle.ccsl_base.specs.Clocks.{ticks_in};
ghost use Rattle.ccsl_formula.specs.declared.scope.Scope.{Scope};
ghost use Rattle.ccsl_formula.specs.Formula.{Formula};
ghost use Rattle.ccsl_formula.specs.Truth.{Assignment};
ghost use Rattle.ccsl_refute.specs.Meaning.{Solves};
ghost use Rattle.ccsl_policy.specs.declared.policies.Policy.{Policy};
ghost use Rattle.ccsl_policy.specs.declared.policies.Policy.TheVariants.{Min, Max};
ghost use Rattle.ccsl_policy.specs.Chosen.{IsChosen};

/// Under `Min` no admissible set is a proper subset of the chosen one: one whose declared members are all chosen has
/// all chosen ones.
pub fn min_is_minimal()
    ensures { (scope : Scope) (formulas : List Formula) (words s : List ℕ) (t : Assignment) →
        IsChosen scope formulas Min words s → Solves scope formulas t →
        ((c : ℕ) → c < scope.declared → t c ≡ true → ticks_in c s ≡ true) →
        (c : ℕ) → c < scope.declared → ticks_in c s ≡ true → t c ≡ true }
{}

/// Under `Max` no admissible set is a proper superset of the chosen one: one that has all declared members that are
/// chosen has no other.
pub fn max_is_maximal()
    ensures { (scope : Scope) (formulas : List Formula) (words s : List ℕ) (t : Assignment) →
        IsChosen scope formulas Max words s → Solves scope formulas t →
        ((c : ℕ) → c < scope.declared → ticks_in c s ≡ true → t c ≡ true) →
        (c : ℕ) → c < scope.declared → t c ≡ true → ticks_in c s ≡ true }
{}

/// Two sets that are chosen have the same declared members.
pub fn the_chosen_set_is_one()
    ensures { (scope : Scope) (formulas : List Formula) (policy : Policy) (words r s : List ℕ) →
        IsChosen scope formulas policy words r → IsChosen scope formulas policy words s →
        (c : ℕ) → c < scope.declared → ticks_in c r ≡ ticks_in c s }
{}
