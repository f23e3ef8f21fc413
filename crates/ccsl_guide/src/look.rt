//! What a formula forces under the present values.

use crate::guide::Forced;
use crate::reason::Reason;
use crate::values::{Operands, valued};
use ccsl_base::Memory;
use ccsl_formula::{Formula, Partial, Truth3};
use ccsl_refute::Lit;

/// Notes the literals that a formula forces, in one pass up and one down. Answers whether the formula is refuted.
pub fn looked(
    formula: &Formula,
    part: &Partial,
    reason: Reason,
    noted: &mut Vec<Operands>,
    forced: &mut Vec<Forced>,
) -> Result<bool, Memory> {
    noted.clear();
    match valued(formula, part, noted)? {
        Truth3::Yes => Ok(false),
        Truth3::No => Ok(true),
        Truth3::Open => {
            force(formula, true, part, reason, noted, forced)?;
            Ok(false)
        }
    }
}

/// Notes the literals without which the formula can't have the wanted value; none behind a connective whose operands
/// are not noted. `valued` notes them all, but no contract says so.
fn force(
    formula: &Formula,
    wanted: bool,
    part: &Partial,
    reason: Reason,
    noted: &mut Vec<Operands>,
    forced: &mut Vec<Forced>,
) -> Result<(), Memory> {
    match formula {
        Formula::True => Ok(()),
        Formula::False => Ok(()),
        Formula::Var(x) => {
            if part.get(*x).is_none() {
                let lit = Lit {
                    clock: *x,
                    positive: wanted,
                };
                forced.push(Forced { lit, reason })?;
            }
            Ok(())
        }
        Formula::Not(f) => force(f, !wanted, part, reason, noted, forced),
        Formula::And(f, g) | Formula::Or(f, g) | Formula::Iff(f, g) => {
            let Some(operands) = noted.pop() else {
                return Ok(());
            };
            let (left, right) = wanted_of(formula, wanted, operands);
            if let Some(wanted) = right {
                force(g, wanted, part, reason, noted, forced)?;
            }
            noted.truncate(operands.middle);
            if let Some(wanted) = left {
                force(f, wanted, part, reason, noted, forced)?;
            }
            noted.truncate(operands.start);
            Ok(())
        }
    }
}

/// The values that the operands of a connective need to have for its wanted value.
fn wanted_of(formula: &Formula, wanted: bool, operands: Operands) -> (Option<bool>, Option<bool>) {
    match formula {
        Formula::And(_, _) => wanted_of_and(wanted, operands),
        Formula::Or(_, _) => {
            let negated = Operands {
                left: operands.left.not(),
                right: operands.right.not(),
                start: 0,
                middle: 0,
            };
            let (left, right) = wanted_of_and(!wanted, negated);
            (left.map(|value| !value), right.map(|value| !value))
        }
        _ => wanted_of_iff(wanted, operands),
    }
}

/// Both operands for a true conjunction; for a false one the operand that is left.
fn wanted_of_and(wanted: bool, operands: Operands) -> (Option<bool>, Option<bool>) {
    if wanted {
        return (Some(true), Some(true));
    }
    match (operands.left, operands.right) {
        (Truth3::Yes, _) => (None, Some(false)),
        (_, Truth3::Yes) => (Some(false), None),
        _ => (None, None),
    }
}

/// The operand that is left, where one is known.
fn wanted_of_iff(wanted: bool, operands: Operands) -> (Option<bool>, Option<bool>) {
    match (operands.left, operands.right) {
        (Truth3::Yes, _) => (None, Some(wanted)),
        (Truth3::No, _) => (None, Some(!wanted)),
        (_, Truth3::Yes) => (Some(wanted), None),
        (_, Truth3::No) => (Some(!wanted), None),
        _ => (None, None),
    }
}
