//! Connectives that fold no constant.

ghost use Rattle.std.specs.Prelude.{◌≡◌, IfOk};
ghost use Rattle.ccsl_formula.specs.Formula.{FNot, FAnd, FOr, FIff};
ghost use Rattle.ccsl_formula.specs.Plain.{plain};

use ccsl_base::Memory;
use ccsl_formula::Formula;
use std::alloc::Global;

/// The negation, whatever the operand: nothing is folded, so that a formula has the shape that is defined.
pub fn not(alloc: Global, f: Formula) -> Result<Formula, Memory>
    ensures { IfOk result (λ r. plain r ≡ FNot (plain f)) }
{
    Ok(Formula::Not(Box::new(alloc, f)?))
}

/// The conjunction, whatever the operands.
pub fn and(alloc: Global, f: Formula, g: Formula) -> Result<Formula, Memory>
    ensures { IfOk result (λ r. plain r ≡ FAnd (plain f) (plain g)) }
{
    Ok(Formula::And(Box::new(alloc, f)?, Box::new(alloc, g)?))
}

/// The disjunction, whatever the operands.
pub fn or(alloc: Global, f: Formula, g: Formula) -> Result<Formula, Memory>
    ensures { IfOk result (λ r. plain r ≡ FOr (plain f) (plain g)) }
{
    Ok(Formula::Or(Box::new(alloc, f)?, Box::new(alloc, g)?))
}

/// The equivalence, whatever the operands.
pub fn iff(alloc: Global, f: Formula, g: Formula) -> Result<Formula, Memory>
    ensures { IfOk result (λ r. plain r ≡ FIff (plain f) (plain g)) }
{
    Ok(Formula::Iff(Box::new(alloc, f)?, Box::new(alloc, g)?))
}
