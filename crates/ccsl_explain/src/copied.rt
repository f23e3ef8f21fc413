//! Copies of formulas.

ghost use Rattle.std.specs.Prelude.{◌≡◌, map, IfOk};
ghost use Rattle.ccsl_formula.specs.Plain.{plain};

use ccsl_base::Memory;
use ccsl_formula::Formula;
use std::alloc::Global;

/// The same formula.
fn copied(alloc: Global, formula: &Formula) -> Result<Formula, Memory>
    ensures { IfOk result (λ copy. plain copy ≡ plain formula.now) }
{
    match formula {
        Formula::True => Ok(Formula::True),
        Formula::False => Ok(Formula::False),
        Formula::Var(x) => Ok(Formula::Var(*x)),
        Formula::Not(f) => {
            let f = copied(alloc, f)?;
            Ok(Formula::Not(Box::new(alloc, f)?))
        }
        Formula::And(f, g) => {
            let f = copied(alloc, f)?;
            let g = copied(alloc, g)?;
            Ok(Formula::And(Box::new(alloc, f)?, Box::new(alloc, g)?))
        }
        Formula::Or(f, g) => {
            let f = copied(alloc, f)?;
            let g = copied(alloc, g)?;
            Ok(Formula::Or(Box::new(alloc, f)?, Box::new(alloc, g)?))
        }
        Formula::Iff(f, g) => {
            let f = copied(alloc, f)?;
            let g = copied(alloc, g)?;
            Ok(Formula::Iff(Box::new(alloc, f)?, Box::new(alloc, g)?))
        }
    }
}

/// The same formulas.
pub fn copies(alloc: Global, formulas: &[Formula]) -> Result<Vec<Formula>, Memory>
    ensures { IfOk result (λ v. map plain v.items ≡ map plain formulas.now) }
{
    let mut copies = Vec::with_capacity(alloc, formulas.len())?;
    for formula in formulas {
        copies.push(copied(alloc, formula)?)?;
    }
    Ok(copies)
}
