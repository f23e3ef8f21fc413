//! The list of the formulas of all items.

ghost use Rattle.std.specs.Prelude.{◌≡◌, List, length, map, All, OnOk};
ghost use Rattle.ccsl_formula.specs.Variables.{ReadsBelow};
ghost use Rattle.ccsl_formula.specs.Plain.{plain};
ghost use Rattle.ccsl_kernel.specs.Syntax.{item_count};
ghost use Rattle.ccsl_kernel.specs.Lives.{Step};
ghost use Rattle.ccsl_state.specs.Held.{StandsFor};
ghost use Rattle.ccsl_items.specs.Formulas.{item_formulas};

use ccsl_base::Memory;
use ccsl_formula::Formula;
use ccsl_kernel::System;
use ccsl_state::States;
use std::alloc::Global;

/// Makes a list that of the formulas of all items at the next step, in the order of the items. After `Memory` it is
/// some list.
pub fn put_formulas(
    alloc: Global,
    system: &System,
    states: &States<'_>,
    formulas: &mut Vec<Formula>,
) -> Result<(), Memory>
    requires system { states.now.system ≡ system.now }
    ensures formulas { OnOk result ((T : List Step) → StandsFor states.now T →
        map plain formulas.new.items ≡ item_formulas system.now T) }
    ensures below { OnOk result
        (All (ReadsBelow (length system.now.names)) (map plain formulas.new.items)) }
    ensures count { OnOk result (length formulas.new.items ≡ item_count system.now) }
{
    formulas.clear();
    for item in 0..system.items() {
        formulas.push(states.formula_of(alloc, item)?)?;
    }
    Ok(())
}
