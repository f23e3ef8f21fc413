//! Why a formula is refuted.

ghost use Rattle.std.specs.Prelude.{◌≡◌, IfOk};
ghost use Rattle.ccsl_formula.specs.declared.truth3.Truth3.TheVariants.{No};
ghost use Rattle.ccsl_formula.specs.Formula.{kleene};
ghost use Rattle.ccsl_formula.specs.Known.{known};
ghost use Rattle.ccsl_formula.specs.Plain.{plain};
ghost use Rattle.ccsl_solve.specs.Under.{Under};

use ccsl_base::Memory;
use ccsl_formula::{Formula, Partial, Truth3};
use ccsl_guide::{Operands, valued};

/// Values of `part` that alone refute a formula which `part` refutes.
pub fn explained(
    formula: &Formula,
    part: &Partial,
    noted: &mut Vec<Operands>,
) -> Result<Partial, Memory>
    requires { kleene (plain formula.now) (known part.now) ≡ No }
    ensures within { IfOk result (λ why. Under (known why) (known part.now)) }
    ensures enough { IfOk result (λ why. kleene (plain formula.now) (known why) ≡ No) }
{
    noted.clear();
    valued(formula, part, noted)?;
    let mut why = Partial::empty();
    explain(formula, part, noted, &mut why);
    match formula.kleene(&why) {
        Truth3::No => Ok(why),
        Truth3::Yes => Ok(part.copy()),
        Truth3::Open => Ok(part.copy()),
    }
}

/// Adds values of `part` that the value of the formula rests on.
fn explain(formula: &Formula, part: &Partial, noted: &mut Vec<Operands>, why: &mut Partial)
    requires { Under (known why.old) (known part.now) }
    ensures { Under (known why.new) (known part.now) }
{
    match formula {
        Formula::True => {}
        Formula::False => {}
        Formula::Var(x) => why.take(part, *x),
        Formula::Not(f) => explain(f, part, noted, why),
        Formula::And(f, g) | Formula::Or(f, g) | Formula::Iff(f, g) => {
            let Some(operands) = noted.pop() else {
                return;
            };
            let needs = needed(formula, operands);
            if needs.right {
                explain(g, part, noted, why);
            }
            noted.truncate(operands.middle);
            if needs.left {
                explain(f, part, noted, why);
            }
            noted.truncate(operands.start);
        }
    }
}

/// The operands that the value of a connective rests on.
#[derive(Clone, Copy)]
struct Needs {
    left: bool,
    right: bool,
}

fn needed(formula: &Formula, operands: Operands) -> Needs {
    let decisive = match formula {
        Formula::And(_, _) => Truth3::No,
        Formula::Or(_, _) => Truth3::Yes,
        _ => Truth3::Open,
    };
    if operands.right == decisive {
        Needs {
            left: false,
            right: true,
        }
    } else {
        Needs {
            left: true,
            right: operands.left != decisive,
        }
    }
}
