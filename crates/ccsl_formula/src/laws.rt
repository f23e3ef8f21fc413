//! The laws of formulas, each as a function without a body. A set of clocks is the assignment that is true for its
//! members.

ghost use Rattle.std.specs.Prelude.{◌≡◌, ℕ, Bool, false, true};
ghost use Rattle.ccsl_formula.specs.declared.truth3.Truth3.TheVariants.{Yes, No};
ghost use Rattle.ccsl_formula.specs.Truth.{Assignment, Part, known_as};
ghost use Rattle.ccsl_formula.specs.Agreement.{Agrees};
ghost use Rattle.ccsl_formula.specs.Formula.{Formula, kleene, truth};
ghost use Rattle.ccsl_formula.specs.Variables.{reads};

/// A formula with the Kleene value No is false under all values that agree with the known ones.
pub fn no_is_false()
    ensures { (f : Formula) (p : Part) (v : Assignment) → Agrees v p →
        kleene f p ≡ No → truth f v ≡ false }
{}

/// A formula with the Kleene value Yes is true under all values that agree with the known ones.
pub fn yes_is_true()
    ensures { (f : Formula) (p : Part) (v : Assignment) → Agrees v p →
        kleene f p ≡ Yes → truth f v ≡ true }
{}

/// Where each variable of a formula is known, its Kleene value is its truth value.
pub fn all_known()
    ensures { (f : Formula) (p : Part) (v : Assignment) →
        ((x : ℕ) → reads f x ≡ true → p x ≡ known_as (v x)) → kleene f p ≡ known_as (truth f v) }
{}

/// The truth value depends on the variables that occur, and on nothing else.
pub fn truth_of_variables()
    ensures { (f : Formula) (v w : Assignment) →
        ((x : ℕ) → reads f x ≡ true → v x ≡ w x) → truth f v ≡ truth f w }
{}

/// The Kleene value depends on the variables that occur, and on nothing else.
pub fn kleene_of_variables()
    ensures { (f : Formula) (p q : Part) →
        ((x : ℕ) → reads f x ≡ true → p x ≡ q x) → kleene f p ≡ kleene f q }
{}
