//! The values of the operands of a formula's connectives, found in one pass. What is read off them is a guess that
//! others check.

use ccsl_base::Memory;
use ccsl_formula::{Formula, Partial, Truth3};

/// The values of the two operands of a connective.
#[derive(Clone, Copy)]
pub struct Operands {
    pub left: Truth3,
    pub right: Truth3,
    /// How many operands were noted before those of the left one.
    pub start: usize,
    /// And before those of the right one.
    pub middle: usize,
}

/// The value of a formula. Notes the operands of each connective, those of the whole formula last.
pub fn valued(
    formula: &Formula,
    part: &Partial,
    noted: &mut Vec<Operands>,
) -> Result<Truth3, Memory> {
    match formula {
        Formula::True => Ok(Truth3::Yes),
        Formula::False => Ok(Truth3::No),
        Formula::Var(x) => Ok(part.value(*x)),
        Formula::Not(f) => {
            let value = valued(f, part, noted)?;
            Ok(value.not())
        }
        Formula::And(f, g) | Formula::Or(f, g) | Formula::Iff(f, g) => {
            let start = noted.len();
            let left = valued(f, part, noted)?;
            let middle = noted.len();
            let right = valued(g, part, noted)?;
            noted.push(Operands {
                left,
                right,
                start,
                middle,
            })?;
            Ok(joined(formula, left, right))
        }
    }
}

/// The value of a connective whose operands have values.
fn joined(formula: &Formula, left: Truth3, right: Truth3) -> Truth3 {
    match formula {
        Formula::And(_, _) => left.and(right),
        Formula::Or(_, _) => left.or(right),
        _ => left.iff(right),
    }
}
