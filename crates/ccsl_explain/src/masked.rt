//! Items that are taken out of a list of formulas: `True` stands in their places, so that all others keep their
//! numbers.

ghost use Rattle.std.specs.Prelude.{◌≡◌, ◌<◌, Some, length, map, slice_get, slice_set};
ghost use Rattle.ccsl_formula.specs.Plain.{plain};
ghost use Rattle.ccsl_formula.specs.declared.formula.Formula.TheVariants.{True};
ghost use Rattle.ccsl_explain.specs.Masked.{without};

use ccsl_formula::Formula;
use std::mem;

/// Takes an item out, and answers its formula.
pub fn take_out(formulas: &mut [Formula], item: u32) -> Formula
    requires { item < length formulas.old }
    ensures out { map plain formulas.new ≡ without (map plain formulas.old) item }
    ensures list { formulas.new ≡ slice_set formulas.old item True }
    ensures formula { slice_get formulas.old item ≡ Some result }
{
    mem::replace(&mut formulas[item as usize], Formula::True)
}

/// Puts an item back.
pub fn put_back(formulas: &mut [Formula], item: u32, formula: Formula)
    requires { item < length formulas.old }
    ensures { formulas.new ≡ slice_set formulas.old item formula }
{
    formulas[item as usize] = formula;
}
