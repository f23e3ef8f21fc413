//! The connectives as functions, which fold constants and nothing else.

ghost use Rattle.std.specs.Prelude.{◌≡◌, ◌||◌, ◌⊎◌, ℕ, Bool, false, true, IfOk};
ghost use Rattle.ccsl_formula.specs.Formula.{FNot, FAnd, FOr, FIff};
ghost use Rattle.ccsl_formula.specs.Variables.{reads};
ghost use Rattle.ccsl_formula.specs.Same.{Same};
ghost use Rattle.ccsl_formula.specs.Folded.{is_constant, is_folded, negation, IsEither};
ghost use Rattle.ccsl_formula.specs.Plain.{plain};

use crate::formula::Formula;
use ccsl_base::Memory;
use std::alloc::Global;

/// The negation. That of a constant is the other constant.
pub fn not(alloc: Global, f: Formula) -> Result<Formula, Memory>
    ensures value { IfOk result (λ r. Same (plain r) (FNot (plain f))) }
    ensures reads { IfOk result (λ r. (v : ℕ) → reads (plain r) v ≡ true →
        reads (plain f) v ≡ true) }
    ensures shape { IfOk result (λ r. plain r ≡ negation (plain f)) }
    ensures folded { IfOk result (λ r. is_folded (plain f) ≡ true → is_folded (plain r) ≡ true) }
{
    match &f {
        Formula::True => Ok(Formula::False),
        Formula::False => Ok(Formula::True),
        _ => Ok(Formula::Not(Box::new(alloc, f)?)),
    }
}

/// The conjunction. Where an operand is a constant, the answer is one of the operands.
#[tactic(auto, using(crate::proofs::Folds::folds))]
pub fn and(alloc: Global, f: Formula, g: Formula) -> Result<Formula, Memory>
    ensures value { IfOk result (λ r. Same (plain r) (FAnd (plain f) (plain g))) }
    ensures reads { IfOk result (λ r. (v : ℕ) → reads (plain r) v ≡ true →
        (reads (plain f) v || reads (plain g) v) ≡ true) }
    ensures shape { IfOk result (λ r. is_constant (plain f) ≡ false →
        is_constant (plain g) ≡ false →
        plain r ≡ FAnd (plain f) (plain g)) }
    ensures constant { IfOk result (λ r. (is_constant (plain f) || is_constant (plain g)) ≡ true →
        (IsEither (plain f) (plain g) (plain r))) }
    ensures folded { IfOk result (λ r. is_folded (plain f) ≡ true → is_folded (plain g) ≡ true →
        is_folded (plain r) ≡ true) }
{
    match (&f, &g) {
        (Formula::True, _) => Ok(g),
        (Formula::False, _) | (_, Formula::False) => Ok(Formula::False),
        (_, Formula::True) => Ok(f),
        _ => Ok(Formula::And(Box::new(alloc, f)?, Box::new(alloc, g)?)),
    }
}

/// The disjunction. Where an operand is a constant, the answer is one of the operands.
#[tactic(auto, using(crate::proofs::Folds::folds))]
pub fn or(alloc: Global, f: Formula, g: Formula) -> Result<Formula, Memory>
    ensures value { IfOk result (λ r. Same (plain r) (FOr (plain f) (plain g))) }
    ensures reads { IfOk result (λ r. (v : ℕ) → reads (plain r) v ≡ true →
        (reads (plain f) v || reads (plain g) v) ≡ true) }
    ensures shape { IfOk result (λ r. is_constant (plain f) ≡ false →
        is_constant (plain g) ≡ false →
        plain r ≡ FOr (plain f) (plain g)) }
    ensures constant { IfOk result (λ r. (is_constant (plain f) || is_constant (plain g)) ≡ true →
        (IsEither (plain f) (plain g) (plain r))) }
    ensures folded { IfOk result (λ r. is_folded (plain f) ≡ true → is_folded (plain g) ≡ true →
        is_folded (plain r) ≡ true) }
{
    match (&f, &g) {
        (Formula::False, _) => Ok(g),
        (Formula::True, _) | (_, Formula::True) => Ok(Formula::True),
        (_, Formula::False) => Ok(f),
        _ => Ok(Formula::Or(Box::new(alloc, f)?, Box::new(alloc, g)?)),
    }
}

/// The equivalence. Where an operand is a constant, the answer is an operand or the negation of one.
#[tactic(auto, using(crate::proofs::Folds::folds))]
pub fn iff(alloc: Global, f: Formula, g: Formula) -> Result<Formula, Memory>
    ensures value { IfOk result (λ r. Same (plain r) (FIff (plain f) (plain g))) }
    ensures reads { IfOk result (λ r. (v : ℕ) → reads (plain r) v ≡ true →
        (reads (plain f) v || reads (plain g) v) ≡ true) }
    ensures shape { IfOk result (λ r. is_constant (plain f) ≡ false →
        is_constant (plain g) ≡ false →
        plain r ≡ FIff (plain f) (plain g)) }
    ensures constant { IfOk result (λ r. (is_constant (plain f) || is_constant (plain g)) ≡ true →
        IsEither (plain f) (plain g) (plain r)
        ⊎ IsEither (negation (plain f)) (negation (plain g)) (plain r)) }
    ensures folded { IfOk result (λ r. is_folded (plain f) ≡ true → is_folded (plain g) ≡ true →
        is_folded (plain r) ≡ true) }
{
    match (&f, &g) {
        (Formula::True, _) => Ok(g),
        (Formula::False, _) => not(alloc, g),
        (_, Formula::True) => Ok(f),
        (_, Formula::False) => not(alloc, f),
        _ => Ok(Formula::Iff(Box::new(alloc, f)?, Box::new(alloc, g)?)),
    }
}
